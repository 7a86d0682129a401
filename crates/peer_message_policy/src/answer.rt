// What the calls answer. The policy comes back inside the answer; a refusal says why, and a refused call changes nothing.
ghost use Rattle.std.specs.Prelude.{◌≡◌};
ghost use Rattle.peer_message_policy.specs.Merged.{merge};

use super::policy::PeerMessagePolicy;
use peer_verdict::verdict::{Cause, InvalidCause};
use refusal::Refusal;

// Why a message is admitted or not; after a refusal the policy is as it was.
#[derive(Clone, Copy, Debug, PartialEq, Eq)]
pub struct Admission {
    pub cause: Cause,
    pub policy: PeerMessagePolicy,
}

// The Rust's three answers, or a refusal.
#[derive(Clone, Copy, Debug, PartialEq, Eq)]
pub enum PeerMessageAdmission {
    Allow(PeerMessagePolicy),
    Disconnect(PeerMessagePolicy),
    Ban(PeerMessagePolicy),
    Refused(Refusal),
}

impl Admission {
    // The answer that the Rust gives: which limit ran short is left out, and whether a ban is live or begins.
    pub fn merge(self) -> PeerMessageAdmission
        ensures { result ≡ merge self }
    {
        match self.cause {
            Cause::Allowed => PeerMessageAdmission::Allow(self.policy),
            Cause::Short(_) => PeerMessageAdmission::Disconnect(self.policy),
            Cause::LiveBan | Cause::BanBegun => PeerMessageAdmission::Ban(self.policy),
            Cause::Refused(refusal) => PeerMessageAdmission::Refused(refusal),
        }
    }
}

// Why the sender of an invalid message is banned or not; after a refusal the policy is as it was.
// Kept: no one generic struct with `Admission`, since `AdmitMeets`, `RecordInvalidMeets` and what stands on them name the two types.
#[derive(Clone, Copy, Debug, PartialEq, Eq)]
pub struct Invalid {
    pub cause: InvalidCause,
    pub policy: PeerMessagePolicy,
}

// Whether a peer is banned.
#[derive(Clone, Copy, Debug, PartialEq, Eq)]
pub enum Standing {
    Banned(PeerMessagePolicy),
    Free(PeerMessagePolicy),
    Refused(Refusal),
}
