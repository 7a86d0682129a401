// The two token buckets of gossip_policy.rs: messages are counted by `DiscreteTokenBucket`, bytes by `ByteTokenBucket`, whose
// settings are `ByteRateLimitConfig`.
//
// By value, an operation that changes a bucket answers the bucket and an answer. In `lent`, the same operations take the bucket by
// `&mut` and alter it. A bucket that is handed in may be anything: one that no caller could have reached (more available than its
// capacity, an amount out of range, minus zero) is refused with 3 and comes back, or stays, as it was. No operation has a `requires`.
//
// Each bucket is proved in a crate of its own (`bucket_discrete`, `bucket_bytes`, over `bucket_terms`); this one gathers them, and has
// the lent forms.
#![tactic(auto)]

pub mod answer;
pub mod bytes;
pub mod discrete;
pub mod lent;
