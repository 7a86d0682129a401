// The settings of the gossip policy and what they say by themselves (a user makes them; the calls of the gossip crates take them).
#![tactic(auto)]

pub mod ban;
pub mod channel_update;
pub mod policy;
pub mod violation;
