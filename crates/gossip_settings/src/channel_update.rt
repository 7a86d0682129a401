// The settings of the limiter of inbound channel updates.
ghost use Rattle.std.specs.Prelude.{◌≡◌};
ghost use Rattle.gossip_settings.specs.Settings.{channel_update_default, channel_update_disabled, max_tracked_keys};

// How often an update of one side of a channel is let in, and how many may come at once. A 0 in either switches the limit off.
#[derive(Clone, Copy, Debug, PartialEq, Eq)]
pub struct ChannelUpdateRateLimitConfig {
    pub interval_ms: u64,
    pub burst: u32,
}

impl ChannelUpdateRateLimitConfig {
    pub const INTERVAL_MS: u64 = 60_000;

    pub const BURST: u32 = 10;
    // 50,000 in the Rust.
    pub const MAX_TRACKED_KEYS: u64 = 1_024;

    // The constants; the second clause holds the one that no field has.
    // Kept: `impl Default` is refused here, since a ghost item cannot name a constant, as the clause most_tracked does.
    pub fn default() -> ChannelUpdateRateLimitConfig
        ensures value { result ≡ channel_update_default }
        ensures most_tracked { ChannelUpdateRateLimitConfig.MAX_TRACKED_KEYS ≡ max_tracked_keys }
    {
        ChannelUpdateRateLimitConfig {
            interval_ms: ChannelUpdateRateLimitConfig::INTERVAL_MS,
            burst: ChannelUpdateRateLimitConfig::BURST,
        }
    }

    pub fn is_disabled(self) -> bool
        ensures { result ≡ channel_update_disabled self }
    {
        self.interval_ms == 0 || self.burst == 0
    }
}
