// The peers' rows in lent bytes, read: one row, and all of them judged and a peer found in one walk (a support crate of
// `peer_message_policy`: its functions require their place).
#![tactic(auto)]

pub mod row;
pub mod walk;
