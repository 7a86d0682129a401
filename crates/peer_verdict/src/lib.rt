// What is decided on one message of a peer: the verdict, pure and on values, over the settings, the peer's entry and the load in flight
// (a support crate of `peer_message_policy`: some functions require a sound entry).
#![tactic(auto)]

pub mod verdict;
