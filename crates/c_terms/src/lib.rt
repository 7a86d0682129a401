// What the C functions share: answers as numbers, each with one value, keys, an amount as five words, and what a call leaves (a support
// crate of `c_buckets`, `c_bans`, `c_limiter` and `c_gossip`, which say how they stand); and the law that an exported function has one
// outcome, which all exporting crates cite.
#![tactic(auto)]

pub mod amount_words;
pub mod reply;
pub mod settings_words;
