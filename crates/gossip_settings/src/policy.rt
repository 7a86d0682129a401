// All settings of the gossip policy.
ghost use Rattle.std.specs.Prelude.{◌≡◌};
ghost use Rattle.gossip_settings.specs.Settings.{gossip_default};

use crate::ban::GossipBanConfig;
use crate::channel_update::ChannelUpdateRateLimitConfig;
use bucket_terms::limit::ByteRateLimitConfig;

// The settings of each part, in the Rust's order.
#[derive(Clone, Copy, Debug, PartialEq, Eq)]
pub struct GossipPolicyConfig {
    pub ban: GossipBanConfig,
    // What all peers together are sent.
    pub outbound_global: ByteRateLimitConfig,
    // What one peer is sent.
    pub outbound_peer: ByteRateLimitConfig,
    // Maximum number of delayed outbound gossip payloads queued per peer.
    pub outbound_delay_queue_capacity: u64,
    pub inbound_channel_update: ChannelUpdateRateLimitConfig,
}

impl GossipPolicyConfig {
    pub const OUTBOUND_DELAY_QUEUE_CAPACITY: u64 = 1_024;
}

impl Default for GossipPolicyConfig {
    ghost is_default = { λ c. c ≡ gossip_default };

    fn default() -> GossipPolicyConfig {
        GossipPolicyConfig {
            ban: GossipBanConfig::default(),
            outbound_global: ByteRateLimitConfig::default_global(),
            outbound_peer: ByteRateLimitConfig::default_peer(),
            outbound_delay_queue_capacity: GossipPolicyConfig::OUTBOUND_DELAY_QUEUE_CAPACITY,
            inbound_channel_update: ChannelUpdateRateLimitConfig::default(),
        }
    }
}
