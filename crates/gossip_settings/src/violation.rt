// What a peer is blamed for.
ghost use Rattle.std.specs.Prelude.{◌≡◌};
ghost use Rattle.gossip_settings.specs.Settings.{violation_score};

// The kinds of violation, in the Rust's order.
#[derive(Clone, Copy, Debug, PartialEq, Eq)]
pub enum GossipViolation {
    InvalidSyncResponse,
    InvalidBroadcastMessage,
    PolicyRejectedMessage,
}

impl GossipViolation {
    // How much the violation adds to the peer's score.
    pub fn score(self) -> u32
        ensures { result ≡ violation_score self }
    {
        match self {
            GossipViolation::InvalidSyncResponse | GossipViolation::InvalidBroadcastMessage => 100,
            GossipViolation::PolicyRejectedMessage => 25,
        }
    }
}
