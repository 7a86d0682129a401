// Rows of any width in lent bytes, by the key that each begins with (a support crate: its functions require their place). One code for
// every table: the key's width is the length of the key that is passed, and what stands behind it is not looked at.
#![tactic(auto)]

pub mod change;
pub mod find;
pub mod kind;
