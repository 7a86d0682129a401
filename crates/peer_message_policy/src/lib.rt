// The admission policy for inbound peer messages (peer_message_policy.rs): each neighbour's messages pass two buckets, repeated
// floods earn a ban, the table of peers is bounded, and the load in flight has a ceiling.
//
// The policy goes by value and comes back in the answer; its rows stand in bytes that the caller lends. Every call takes any
// arguments over any lent memory. One on an unsound policy or table is refused with 3, and a refused call changes no byte.
#![tactic(auto)]

pub mod answer;
mod calls;
mod carry;
mod judge;
pub mod policy;
