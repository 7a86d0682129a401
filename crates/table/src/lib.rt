// Rows of one width in lent bytes, strictly ascending by their first key bytes (a support crate: its functions require their
// place). One set of primitives for every table: widths are numbers.
#![tactic(auto)]

pub mod keys;
pub mod rows;
pub mod seek;
