// The settings of the gossip bans.
ghost use Rattle.std.specs.Prelude.{◌≡◌};
ghost use Rattle.gossip_settings.specs.Settings.{ban_default, gossip_ban_disabled, max_tracked_peers};

// The score that bans a peer, and how long the ban lasts. A 0 in either switches bans off.
#[derive(Clone, Copy, Debug, PartialEq, Eq)]
pub struct GossipBanConfig {
    pub threshold: u32,
    pub duration_ms: u64,
}

impl GossipBanConfig {
    pub const THRESHOLD: u32 = 100;

    pub const DURATION_MS: u64 = 600_000;
    // 50,000 in the Rust.
    pub const MAX_TRACKED_PEERS: u64 = 1_024;

    // The constants; the second clause holds the one that no field has.
    // Kept: `impl Default` is refused here, since a ghost item cannot name a constant, as the clause most_tracked does.
    pub fn default() -> GossipBanConfig
        ensures value { result ≡ ban_default }
        ensures most_tracked { GossipBanConfig.MAX_TRACKED_PEERS ≡ max_tracked_peers }
    {
        GossipBanConfig {
            threshold: GossipBanConfig::THRESHOLD,
            duration_ms: GossipBanConfig::DURATION_MS,
        }
    }

    pub fn is_disabled(self) -> bool
        ensures { result ≡ gossip_ban_disabled self }
    {
        self.threshold == 0 || self.duration_ms == 0
    }
}
