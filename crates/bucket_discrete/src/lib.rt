// The bucket that counts messages, by itself. A user finds it in `token_bucket`.
#![tactic(auto)]

pub mod discrete;
