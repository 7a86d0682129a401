// The gossip bans (gossip_policy.rs): a neighbour's violations add up to a score, a score that reaches the threshold earns a ban, and
// the table of peers is bounded.
//
// The tracker goes by value and comes back beside the answer; its rows stand in bytes that the caller lends. Every call takes any
// arguments over any lent memory. One on an unsound tracker or table is refused with 3, and a refused call changes no byte.
#![tactic(auto)]

pub mod answer;
mod calls;
mod carry;
mod judge;
pub mod tracker;
