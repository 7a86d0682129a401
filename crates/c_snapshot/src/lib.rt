// Snapshots of a peer policy behind C functions, for a program in another language to link: written, read back, asked for their parts,
// and walked row by row.
//
// A policy crosses as the words of crate `c_peers`. A snapshot, a table and an output are each a pointer, then a length; a key is a
// pointer to 33 bytes. The caller answers for what types would rule out there: no null, every length true, and no two of them over the
// same memory. The answer is a number: a refusal itself, on which nothing changes, or 256 and up.
#![tactic(auto)]

pub mod parts;
pub mod policy;
