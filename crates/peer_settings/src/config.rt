// The settings of the peers' policy, under the Rust's names. A 0 switches the limit off that it belongs to.
ghost use Rattle.std.specs.Prelude.{◌≡◌};
ghost use Rattle.peer_settings.specs.Config.{config_default, config_with_limits, message_limit_disabled, ban_disabled};
ghost use Rattle.peer_settings.specs.Config.{unlimited, limit};

// The nine settings, in the Rust's order.
#[derive(Clone, Copy, Debug, PartialEq, Eq)]
pub struct PeerMessagePolicyConfig {
    // Refill interval of the per-peer message bucket, in milliseconds.
    pub peer_message_interval_ms: u64,
    // Capacity of the per-peer message bucket.
    pub peer_message_burst: u32,
    // Sustained per-peer byte rate, in bytes per second.
    pub peer_message_rate_bytes_per_sec: u64,
    // Burst size of the per-peer byte bucket, in bytes.
    pub peer_message_burst_bytes: u64,
    // Number of repeated violations before a peer is temporarily banned.
    pub violation_ban_threshold: u32,
    // Duration of a temporary ban, in milliseconds.
    pub ban_duration_ms: u64,
    // Maximum number of peers tracked by the policy.
    pub max_tracked_peers: u64,
    // Maximum number of inbound messages in flight globally.
    pub max_in_flight_messages: u32,
    // Maximum bytes of inbound messages in flight globally.
    pub max_in_flight_bytes: u64,
}

impl PeerMessagePolicyConfig {
    pub const PEER_MESSAGE_INTERVAL_MS: u64 = 5;

    pub const PEER_MESSAGE_BURST: u32 = 400;

    pub const PEER_MESSAGE_RATE_BYTES_PER_SEC: u64 = 1_048_576;

    pub const PEER_MESSAGE_BURST_BYTES: u64 = 4_194_304;

    pub const PEER_MESSAGE_VIOLATION_BAN_THRESHOLD: u32 = 20;

    pub const PEER_MESSAGE_BAN_DURATION_MS: u64 = 600_000;

    // 50,000 in the Rust.
    pub const PEER_MESSAGE_MAX_TRACKED_PEERS: u64 = 1_024;

    pub const FIBER_INGRESS_MAX_IN_FLIGHT_MESSAGES: u32 = 4_096;

    pub const FIBER_INGRESS_MAX_IN_FLIGHT_BYTES: u64 = 33_554_432;

    // What `max_tracked_peers` may not exceed.
    pub const MAX_ROWS: u64 = 1_024;

    // The defaults, but for how many peers are tracked and how much may be in flight.
    pub fn with_limits(
        max_entries: u64,
        max_in_flight_messages: u32,
        max_in_flight_bytes: u64,
    ) -> PeerMessagePolicyConfig
        ensures { result ≡ config_with_limits max_entries max_in_flight_messages max_in_flight_bytes }
    {
        PeerMessagePolicyConfig {
            max_tracked_peers: max_entries.max(1),
            max_in_flight_messages,
            max_in_flight_bytes,
            ..PeerMessagePolicyConfig::default()
        }
    }

    // Whether the per-peer message bucket is disabled.
    pub fn message_limit_disabled(self) -> bool
        ensures { result ≡ message_limit_disabled self }
    {
        self.peer_message_interval_ms == 0 || self.peer_message_burst == 0
    }

    // Whether temporary bans are disabled.
    pub fn ban_disabled(self) -> bool
        ensures { result ≡ ban_disabled self }
    {
        self.violation_ban_threshold == 0
    }

    // Whether there is no ceiling on the load in flight: one 0 switches it off for messages and bytes.
    pub fn is_unlimited(self) -> bool
        ensures { result ≡ unlimited self }
    {
        self.max_in_flight_messages == 0 || self.max_in_flight_bytes == 0
    }

    // How many peers are tracked: a stored 0 stays 0, and counts as 1.
    pub fn limit(self) -> u64
        ensures { result ≡ limit self }
    {
        self.max_tracked_peers.max(1)
    }
}

impl Default for PeerMessagePolicyConfig {
    ghost is_default = { λ c. c ≡ config_default };

    fn default() -> PeerMessagePolicyConfig {
        PeerMessagePolicyConfig {
            peer_message_interval_ms: PeerMessagePolicyConfig::PEER_MESSAGE_INTERVAL_MS,
            peer_message_burst: PeerMessagePolicyConfig::PEER_MESSAGE_BURST,
            peer_message_rate_bytes_per_sec: PeerMessagePolicyConfig::PEER_MESSAGE_RATE_BYTES_PER_SEC,
            peer_message_burst_bytes: PeerMessagePolicyConfig::PEER_MESSAGE_BURST_BYTES,
            violation_ban_threshold: PeerMessagePolicyConfig::PEER_MESSAGE_VIOLATION_BAN_THRESHOLD,
            ban_duration_ms: PeerMessagePolicyConfig::PEER_MESSAGE_BAN_DURATION_MS,
            max_tracked_peers: PeerMessagePolicyConfig::PEER_MESSAGE_MAX_TRACKED_PEERS,
            max_in_flight_messages: PeerMessagePolicyConfig::FIBER_INGRESS_MAX_IN_FLIGHT_MESSAGES,
            max_in_flight_bytes: PeerMessagePolicyConfig::FIBER_INGRESS_MAX_IN_FLIGHT_BYTES,
        }
    }
}
