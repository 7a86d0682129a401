// What the calls answer: the tracker first, as it was where the answer is an `Err` with the refusal.
use super::tracker::GossipBanTracker;
use refusal::{Answered, Refusal};

// Whether a peer is banned.
pub type BanTold = Answered<GossipBanTracker, Result<bool, Refusal>>;

pub type BanScored = Answered<GossipBanTracker, Result<u32, Refusal>>;

pub type BanPruned = Answered<GossipBanTracker, Result<(), Refusal>>;
