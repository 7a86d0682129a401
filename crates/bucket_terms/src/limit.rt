// The settings of the byte bucket.
ghost use Rattle.std.specs.Prelude.{◌≡◌};
ghost use Rattle.bucket_terms.specs.Limit.{byte_limit, byte_disabled};

// A rate and the most that may come at once. A 0 in either switches the limit off.
#[derive(Clone, Copy, Debug, PartialEq, Eq)]
pub struct ByteRateLimitConfig {
    pub rate_bytes_per_sec: u64,
    pub burst_bytes: u64,
}

impl ByteRateLimitConfig {
    pub const GLOBAL_RATE_BYTES_PER_SEC: u64 = 1_024_000;

    pub const GLOBAL_BURST_BYTES: u64 = 2_048_000;

    pub const PEER_RATE_BYTES_PER_SEC: u64 = 51_200;

    pub const PEER_BURST_BYTES: u64 = 102_400;

    pub fn new(rate_bytes_per_sec: u64, burst_bytes: u64) -> ByteRateLimitConfig
        ensures { result ≡ byte_limit rate_bytes_per_sec burst_bytes }
    {
        ByteRateLimitConfig {
            rate_bytes_per_sec,
            burst_bytes,
        }
    }

    // What all peers together are sent.
    pub fn default_global() -> ByteRateLimitConfig
        ensures { result ≡ byte_limit 1024000 2048000 }
    {
        ByteRateLimitConfig {
            rate_bytes_per_sec: ByteRateLimitConfig::GLOBAL_RATE_BYTES_PER_SEC,
            burst_bytes: ByteRateLimitConfig::GLOBAL_BURST_BYTES,
        }
    }

    // What one peer is sent.
    pub fn default_peer() -> ByteRateLimitConfig
        ensures { result ≡ byte_limit 51200 102400 }
    {
        ByteRateLimitConfig {
            rate_bytes_per_sec: ByteRateLimitConfig::PEER_RATE_BYTES_PER_SEC,
            burst_bytes: ByteRateLimitConfig::PEER_BURST_BYTES,
        }
    }

    pub fn is_disabled(self) -> bool
        ensures { result ≡ byte_disabled self }
    {
        self.rate_bytes_per_sec == 0 || self.burst_bytes == 0
    }
}
