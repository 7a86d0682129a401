// The settings and the load in flight as a snapshot has them, read and written where they stand (a support crate: its functions require
// their place).
#![tactic(auto)]

pub mod load;
pub mod settings;
