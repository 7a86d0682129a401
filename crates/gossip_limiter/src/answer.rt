// What the calls answer: the limiter first, as it was where the answer is an `Err` with the refusal.
use super::limiter::ChannelUpdateLimiter;
use refusal::{Answered, Refusal};

// Whether an update is let in.
pub type LimiterTold = Answered<ChannelUpdateLimiter, Result<bool, Refusal>>;
