// The gossip state from its words, and its words again.
ghost use Rattle.std.specs.Prelude.{◌≡◌};
ghost use Rattle.c_gossip.specs.GossipWords.{state_of, config_of, gossip_longs, gossip_shorts};

use bucket_bytes::bytes::ByteTokenBucket;
use bucket_terms::limit::ByteRateLimitConfig;
use c_terms::amount_words;
use gossip_bans::tracker::GossipBanTracker;
use gossip_policy::state::GossipPolicyState;
use gossip_settings::ban::GossipBanConfig;
use gossip_settings::channel_update::ChannelUpdateRateLimitConfig;
use gossip_settings::policy::GossipPolicyConfig;

pub(crate) fn state_of(longs: &[u64; 10], shorts: &[u32; 6]) -> GossipPolicyState
    ensures { result ≡ state_of longs.now shorts.now }
{
    let words = [shorts[1], shorts[2], shorts[3], shorts[4], shorts[5]];
    GossipPolicyState {
        ban_tracker: GossipBanTracker {
            config: GossipBanConfig {
                threshold: shorts[0],
                duration_ms: longs[0],
            },
            max_entries: longs[1],
            rows: longs[2],
        },
        global_outbound: ByteTokenBucket {
            config: ByteRateLimitConfig {
                rate_bytes_per_sec: longs[3],
                burst_bytes: longs[4],
            },
            available_bytes: amount_words::amount_of(&words),
            last_refill_ms: longs[5],
        },
        rows: longs[8],
        outbound_delay_queue_capacity: longs[9],
        peer_outbound_config: ByteRateLimitConfig {
            rate_bytes_per_sec: longs[6],
            burst_bytes: longs[7],
        },
    }
}

// The settings that a state was made of; those of the limiter, of which it has none, are the defaults.
pub(crate) fn config_of(s: GossipPolicyState) -> GossipPolicyConfig
    ensures { result ≡ config_of s }
{
    GossipPolicyConfig {
        ban: s.ban_tracker.config,
        outbound_global: s.global_outbound.config,
        outbound_peer: s.peer_outbound_config,
        outbound_delay_queue_capacity: s.outbound_delay_queue_capacity,
        inbound_channel_update: ChannelUpdateRateLimitConfig::default(),
    }
}

pub(crate) fn longs_of(s: GossipPolicyState) -> [u64; 10]
    ensures { result ≡ gossip_longs s }
{
    [
        s.ban_tracker.config.duration_ms,
        s.ban_tracker.max_entries,
        s.ban_tracker.rows,
        s.global_outbound.config.rate_bytes_per_sec,
        s.global_outbound.config.burst_bytes,
        s.global_outbound.last_refill_ms,
        s.peer_outbound_config.rate_bytes_per_sec,
        s.peer_outbound_config.burst_bytes,
        s.rows,
        s.outbound_delay_queue_capacity,
    ]
}

pub(crate) fn shorts_of(s: GossipPolicyState) -> [u32; 6]
    ensures { result ≡ gossip_shorts s }
{
    let words = amount_words::words_of(s.global_outbound.available_bytes);
    [
        s.ban_tracker.config.threshold,
        words[0],
        words[1],
        words[2],
        words[3],
        words[4],
    ]
}
