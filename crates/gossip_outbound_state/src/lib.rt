// The state of the outbound half of the gossip policy, and what its calls are made of: the state judged and a peer found, two buckets
// asked, and a peer's bucket read and written (a support crate of `gossip_outbound`: its functions require their place).
#![tactic(auto)]

pub mod carry;
pub mod charge;
pub mod judge;
pub mod state;
