// A policy as words in which nothing can be out of range, a call's answer as a number, and admit's cause as two words (a support crate of `c_peers`, which says how
// they stand).
#![tactic(auto)]

pub mod answers;
pub mod cause;
pub mod words;
