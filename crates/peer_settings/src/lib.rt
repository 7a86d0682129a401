// The settings of the peers' policy and the questions that they answer by themselves (a user makes them; the policy's calls take them).
#![tactic(auto)]

pub mod config;
