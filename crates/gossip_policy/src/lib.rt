// The gossip policy: GossipPolicyState of gossip_policy.rs, which joins the bans and the outbound half.
//
// The state is a value, and its rows stand in two lent tables: a call on bans is lent the one, a call on outbound messages the other, and
// each is judged on what it is lent. No call has a condition; a refused call changes nothing.
#![tactic(auto)]

pub mod answer;
pub mod state;
