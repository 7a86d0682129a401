// How a snapshot's bytes are laid out, for any list of kinds and lengths (a support crate: its functions require their place).
#![tactic(auto)]

pub mod contents;
pub mod place;
