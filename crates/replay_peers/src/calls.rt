// The recorded calls of a policy: 2 admit (bytes, now, key), 3 record_invalid, 4 is_banned, 5 on_disconnected, 6 release_ingress
// (bytes), 7 in_flight, 8 held_time.
use crate::held::{Held, refused, says};
use peer_message_policy::answer::{Admission, Invalid, Standing};
use peer_state::ingress::FiberIngressBudget;
use peer_verdict::verdict::{Cause, InvalidCause, Shortage};
use pubkey::Pubkey;
use refusal::Refusal;
use replay::line::Line;
use replay::record::{Record, key_of};

// Kept: each number of the recorded list stands in one match alone; an enum between would only name it once more.
pub(crate) fn answered(held: &mut Held, table: &mut [u8], r: Record) -> Line {
    let policy = held.policy;
    let key = Pubkey {
        bytes: key_of(r.third, r.fourth, r.fifth, r.sixth, r.seventh),
    };
    match r.operation {
        2 => admitted(held, policy.admit(table, key, r.first, r.second)),
        3 => noted(held, policy.record_invalid(table, key, r.second)),
        4 => standing(held, policy.is_banned(table, key, r.second)),
        5 => held.changed(policy.on_disconnected(table, key, r.second)),
        6 => held.changed(policy.release_ingress(r.first)),
        7 => in_flight(policy.in_flight()),
        8 => held_time(policy.held_time(table, key, r.second)),
        _ => says(b"unknown operation"),
    }
}

// Whether it is admitted; if not, what ran short, and by how much.
fn admitted(held: &mut Held, answer: Admission) -> Line {
    let policy = answer.policy;
    match answer.cause {
        Cause::Allowed => held.left(policy, b"Allow"),
        Cause::Short(Shortage::Messages) => held.left(policy, b"Disconnect-messages").then(1),
        Cause::Short(Shortage::Bytes(k)) => held.left(policy, b"Disconnect-bytes").then(k),
        Cause::Short(Shortage::Slot) => held.left(policy, b"Disconnect-slot").then(1),
        Cause::Short(Shortage::CeilingBytes(k)) => {
            held.left(policy, b"Disconnect-ceiling-bytes").then(k)
        }
        Cause::LiveBan => held.left(policy, b"Ban-live"),
        Cause::BanBegun => held.left(policy, b"Ban-begun"),
        Cause::Refused(n) => refused(n),
    }
}

fn noted(held: &mut Held, answer: Invalid) -> Line {
    match answer.cause {
        InvalidCause::Noted => held.left(answer.policy, b"0"),
        InvalidCause::LiveBan | InvalidCause::BanBegun => held.left(answer.policy, b"1"),
        InvalidCause::Refused(n) => refused(n),
    }
}

fn standing(held: &mut Held, answer: Standing) -> Line {
    match answer {
        Standing::Banned(p) => held.left(p, b"1"),
        Standing::Free(p) => held.left(p, b"0"),
        Standing::Refused(n) => refused(n),
    }
}

fn in_flight(answer: Result<FiberIngressBudget, Refusal>) -> Line {
    match answer {
        Ok(load) => Line::empty()
            .decimal(load.in_flight_messages as u64)
            .then(load.in_flight_bytes),
        Err(n) => refused(n),
    }
}

fn held_time(answer: Result<u64, Refusal>) -> Line {
    match answer {
        Ok(time) => Line::empty().decimal(time),
        Err(n) => refused(n),
    }
}
