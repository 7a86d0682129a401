// Pieces of a line of text, written one behind the other into a slice that the caller lends (a support crate: its functions require
// their room).
//
// Every contract says the same: the text stands at its place, every other byte stays, and the answer is the place behind it.
#![tactic(auto)]

pub mod column;
pub mod hex;
pub mod piece;
