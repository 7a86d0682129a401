// The limiter of inbound channel updates (gossip_policy.rs): each peer has a bucket of tokens for each side of a channel, and the table of
// buckets is bounded.
//
// The limiter goes by value and comes back beside the answer; its rows stand in bytes that the caller lends. Every call takes any
// arguments over any lent memory. One on an unsound limiter or table is refused with 3, and a refused call changes no byte.
#![tactic(auto)]

pub mod answer;
mod calls;
mod judge;
pub mod limiter;
