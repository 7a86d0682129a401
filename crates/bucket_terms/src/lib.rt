// What both token buckets speak of: their answers, and the settings of the byte bucket. A user finds them in `token_bucket`.
#![tactic(auto)]

pub mod answer;
pub mod limit;
