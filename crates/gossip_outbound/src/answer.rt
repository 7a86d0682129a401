// What the calls answer: the state first, as it was where the answer is an `Err` with the refusal.
use gossip_outbound_state::state::Outbound;
use refusal::{Answered, Refusal};

// Whether a message may be sent, and was charged.
pub type OutboundTold = Answered<Outbound, Result<bool, Refusal>>;

// How long to wait before a message that was charged may be sent.
pub type OutboundReserved = Answered<Outbound, Result<u64, Refusal>>;

pub type OutboundSettled = Answered<Outbound, Result<(), Refusal>>;
