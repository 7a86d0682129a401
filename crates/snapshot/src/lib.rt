// Snapshots of a peer policy: written, read back, and asked for their parts.
//
// A snapshot is bytes that anyone may have made: every function takes any bytes at all, over any lent memory, and a refused call changes
// no byte.
#![tactic(auto)]

mod copy;
mod form;
mod judge;
pub mod part;
pub mod policy;
mod put;
