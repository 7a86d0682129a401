// The violation of a number.
ghost use Rattle.std.specs.Prelude.{◌≡◌};
ghost use Rattle.c_bans.specs.Blame.{blame_of};

use gossip_settings::violation::GossipViolation;

pub fn blame_of(n: u32) -> Option<GossipViolation>
    ensures { result ≡ blame_of n }
{
    match n {
        0 => Some(GossipViolation::InvalidSyncResponse),
        1 => Some(GossipViolation::InvalidBroadcastMessage),
        2 => Some(GossipViolation::PolicyRejectedMessage),
        _ => None,
    }
}
