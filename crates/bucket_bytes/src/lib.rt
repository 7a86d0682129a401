// The bucket that counts bytes, by itself. A user finds it in `token_bucket`.
#![tactic(auto)]

pub mod bytes;
