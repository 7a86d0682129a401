// Judging a tracker and the memory lent to it, and finding a peer: what every call begins with.
ghost use Rattle.std.specs.Prelude.{◌≡◌};
ghost use Rattle.gossip_bans.specs.Tracker.{limit_of, tracker_sound, sound};
ghost use Rattle.gossip_bans.specs.Private.{sought_in};

use super::tracker::GossipBanTracker;
use gossip_ban_rows::row::ROW_WIDTH;
use gossip_settings::ban::GossipBanConfig;
use pubkey::Pubkey;
use table::seek::Seek;

impl GossipBanTracker {
    // How many rows the limit stands for; a limit of 0 counts as 1.
    pub(crate) fn limit(self) -> u64
        ensures { result ≡ limit_of self.max_entries }
    {
        self.max_entries.max(1)
    }

    // The record's own rules.
    pub(crate) fn is_sound(self) -> bool
        ensures { result ≡ tracker_sound self }
    {
        self.max_entries <= GossipBanConfig::MAX_TRACKED_PEERS && self.rows <= self.limit()
    }

    // The record, the memory's length and every row are judged, and the peer is found.
    pub(crate) fn sought(self, table: &[u8], peer: Pubkey) -> Seek
        ensures { result ≡ sought_in self table.now peer.bytes }
    {
        if !self.is_sound() {
            return Seek::Unsound;
        }
        if ((table.len() / ROW_WIDTH) as u64) < self.limit() {
            return Seek::Unsound;
        }
        gossip_ban_rows::walk::sought(table, self.rows as usize, peer)
    }

    // The same where no peer is asked for: any key serves.
    pub(crate) fn is_sound_in(self, table: &[u8]) -> bool
        ensures { result ≡ sound self table.now }
    {
        let any = Pubkey { bytes: [0; 33] };
        match self.sought(table, any) {
            Seek::Unsound => false,
            Seek::At(_) => true,
            Seek::Gap(_) => true,
        }
    }
}
