// Judging a limiter and the memory lent to it, and finding a key: what every call begins with.
ghost use Rattle.std.specs.Prelude.{◌≡◌};
ghost use Rattle.pubkey.specs.Order.{limiter_key_bytes};
ghost use Rattle.gossip_limiter.specs.Limiter.{limit_of, limiter_record_sound};
ghost use Rattle.gossip_limiter.specs.Private.{sought_in};

use super::limiter::ChannelUpdateLimiter;
use gossip_limiter_rows::row::ROW_WIDTH;
use gossip_settings::channel_update::ChannelUpdateRateLimitConfig;
use pubkey::ChannelUpdateLimiterKey;
use table::seek::Seek;

impl ChannelUpdateLimiter {
    // How many rows the limit stands for; a limit of 0 counts as 1.
    pub(crate) fn limit(self) -> u64
        ensures { result ≡ limit_of self.max_entries }
    {
        self.max_entries.max(1)
    }

    // The record's own rules.
    pub(crate) fn is_sound(self) -> bool
        ensures { result ≡ limiter_record_sound self }
    {
        self.max_entries <= ChannelUpdateRateLimitConfig::MAX_TRACKED_KEYS
            && self.rows <= self.limit()
    }

    // The record, the memory's length and every row are judged, and the key is found.
    pub(crate) fn sought(self, table: &[u8], key: ChannelUpdateLimiterKey) -> Seek
        ensures { result ≡ sought_in self table.now (limiter_key_bytes key) }
    {
        if !self.is_sound() {
            return Seek::Unsound;
        }
        if ((table.len() / ROW_WIDTH) as u64) < self.limit() {
            return Seek::Unsound;
        }
        gossip_limiter_rows::walk::sought(table, self.rows as usize, self.config, key)
    }
}
