// What the replaying programs share: records that they read, lines that they write, bytes that they lend and sum up (a support crate).
//
// A record is 64 bytes, eight little-endian words: an operation's number, then its operands. A line answers a record.
#![tactic(auto)]

pub mod checksum;
pub mod line;
pub mod memory;
pub mod program;
pub mod record;
