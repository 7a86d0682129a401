// The peers' rows in lent bytes, changed: stored, pruned and evicted (a support crate of `peer_message_policy`: its functions require
// their place).
#![tactic(auto)]

pub mod first;
pub mod places;
pub mod room;
