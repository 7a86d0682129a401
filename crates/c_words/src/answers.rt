// The answers as numbers.
ghost use Rattle.std.specs.Prelude.{◌≡◌};
ghost use Rattle.c_words.specs.Answers.{admission_numbered, made_numbered, invalid_numbered, standing_numbered, changed_numbered};

pub use c_terms::reply::{DONE, NO, YES};
use peer_message_policy::answer::{Invalid, PeerMessageAdmission, Standing};
use peer_message_policy::policy::PeerMessagePolicy;
use peer_verdict::verdict::InvalidCause;
use refusal::Refusal;

// Kept: the C interface has numbers for answers.
pub const ALLOW: u32 = 256;

pub const DISCONNECT: u32 = 257;

pub const BAN: u32 = 258;

// A policy that was made or changed by a call that answers nothing else.
pub fn numbered_changed(
    a: Result<PeerMessagePolicy, Refusal>,
) -> Result<(u32, PeerMessagePolicy), Refusal>
    ensures made { result ≡ made_numbered a }
    ensures changed { result ≡ changed_numbered a }
{
    Ok((DONE, a?))
}

pub fn numbered_admission(a: PeerMessageAdmission) -> Result<(u32, PeerMessagePolicy), Refusal>
    ensures { result ≡ admission_numbered a }
{
    match a {
        PeerMessageAdmission::Allow(p) => Ok((ALLOW, p)),
        PeerMessageAdmission::Disconnect(p) => Ok((DISCONNECT, p)),
        PeerMessageAdmission::Ban(p) => Ok((BAN, p)),
        PeerMessageAdmission::Refused(n) => Err(n),
    }
}

pub fn numbered_invalid(a: Invalid) -> Result<(u32, PeerMessagePolicy), Refusal>
    ensures { result ≡ invalid_numbered a }
{
    match a.cause {
        InvalidCause::Noted => Ok((NO, a.policy)),
        InvalidCause::LiveBan | InvalidCause::BanBegun => Ok((YES, a.policy)),
        InvalidCause::Refused(n) => Err(n),
    }
}

pub fn numbered_standing(a: Standing) -> Result<(u32, PeerMessagePolicy), Refusal>
    ensures { result ≡ standing_numbered a }
{
    match a {
        Standing::Banned(p) => Ok((YES, p)),
        Standing::Free(p) => Ok((NO, p)),
        Standing::Refused(n) => Err(n),
    }
}
