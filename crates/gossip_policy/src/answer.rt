// What the calls answer: the state first, as it was where the answer is an `Err` with the refusal.
use super::state::GossipPolicyState;
use refusal::{Answered, Refusal};

// Whether a peer is banned, or a message may be sent and was charged.
pub type GossipTold = Answered<GossipPolicyState, Result<bool, Refusal>>;

// The expired bans have gone.
pub type GossipPruned = Answered<GossipPolicyState, Result<(), Refusal>>;

// A call that says nothing more was carried out. A maker that is refused answers the state that it would have made.
pub type GossipSettled = Answered<GossipPolicyState, Result<(), Refusal>>;

// How long to wait before a message that was charged may be sent.
pub type GossipReserved = Answered<GossipPolicyState, Result<u64, Refusal>>;
