// The rows of the outbound buckets in lent bytes: a bucket as four numbers and back, a row read and written, all rows judged and a peer
// found (a support crate of `gossip_outbound`: its functions require their place).
#![tactic(auto)]

pub mod entry;
pub mod place;
pub mod row;
pub mod walk;
