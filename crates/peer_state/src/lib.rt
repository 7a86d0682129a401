// What the peers' policy keeps: an entry for each peer, and the load in flight with its ceiling. Pure and on values (a support crate of
// `peer_message_policy`).
#![tactic(auto)]

pub mod entry;
pub mod ingress;
