// The bucket that counts bytes, and its settings.
pub use bucket_bytes::bytes::{ByteConsumed, ByteRefilled, ByteReserved, ByteTokenBucket};
pub use bucket_terms::limit::ByteRateLimitConfig;
