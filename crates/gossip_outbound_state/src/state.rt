// The state of the outbound half, by value.
use bucket_bytes::bytes::ByteTokenBucket;
use bucket_terms::limit::ByteRateLimitConfig;
use gossip_outbound_rows::row::ROW_WIDTH;

// What all peers together may be sent, the settings of each peer's bucket, and how many rows of the lent memory are in use.
#[derive(Clone, Copy, Debug, PartialEq, Eq)]
pub struct Outbound {
    pub global_outbound: ByteTokenBucket,
    pub peer_outbound_config: ByteRateLimitConfig,
    pub rows: u64,
}

impl Outbound {
    // How many peers have a bucket at most.
    pub const MAX_ROWS: u64 = 1_024;

    // How many bytes the table has at least.
    pub const TABLE_BYTES: usize = ROW_WIDTH * Outbound::MAX_ROWS as usize;
}
