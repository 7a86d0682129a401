// The rows of the gossip bans in lent bytes: an entry on its own, a row read and written, all rows judged and a peer found, and room
// made for one more (a support crate of `gossip_bans`: its functions require their place).
#![tactic(auto)]

pub mod entry;
pub mod place;
pub mod room;
pub mod row;
pub mod walk;
