// The rows of the channel update limiter in lent bytes: an entry on its own, a row read and written, all rows judged and a key found,
// and idle rows taken out (a support crate of `gossip_limiter`: its functions require their place).
#![tactic(auto)]

pub mod entry;
pub mod place;
pub mod prune;
pub mod row;
pub mod walk;
