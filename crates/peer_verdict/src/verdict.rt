// What admit and record_invalid decide on one entry, before a byte is written.
ghost use Rattle.std.specs.Prelude.{◌≡◌, true, ◌≤◌, ◌<◌};
ghost use Rattle.amount.specs.Amount.{value, natural};
ghost use Rattle.peer_state.specs.Entry.{entry_sound};
ghost use Rattle.peer_verdict.specs.Verdict.{take_message, take_bytes, with_buckets};
ghost use Rattle.peer_verdict.specs.Verdict.{reaches_ban, violated, ceiling_decides, decision, invalid_decision, refuses};

use amount::Amount;
use bucket_terms::answer::NotGiven;
use peer_settings::config::PeerMessagePolicyConfig;
use peer_state::entry::{Level, PeerMessagePolicyEntry, ViolationWindow};
use peer_state::ingress::{FiberIngressBudget, NotReserved};
use refusal::{Answered, Refusal};
use token_bucket::bytes::{ByteConsumed, ByteRateLimitConfig, ByteTokenBucket};
use token_bucket::discrete::{DiscreteConsumed, DiscreteTokenBucket};

// Which limit ran short, in the order in which they decide: the message bucket by one message, the byte bucket by bytes beyond
// what is left in it, the ceiling by one slot or by bytes beyond what is left under it.
#[derive(Clone, Copy, Debug, PartialEq, Eq)]
pub enum Shortage {
    Messages,
    Bytes(u64),
    Slot,
    CeilingBytes(u64),
}

// Why a message is admitted or not: a limit ran short, its sender is banned, since an earlier call or from now on, or the call is
// refused with this number.
#[derive(Clone, Copy, Debug, PartialEq, Eq)]
pub enum Cause {
    Allowed,
    Short(Shortage),
    LiveBan,
    BanBegun,
    Refused(Refusal),
}

impl Cause {
    // Whether it is a refusal.
    pub fn refuses(self) -> bool
        ensures { result ≡ refuses self }
    {
        matches!(self, Cause::Refused(_))
    }
}

// Why the sender of an invalid message is banned or not.
#[derive(Clone, Copy, Debug, PartialEq, Eq)]
pub enum InvalidCause {
    Noted,
    LiveBan,
    BanBegun,
    Refused(Refusal),
}

// The cause, the entry as it is to be stored, and the load in flight.
#[derive(Clone, Copy, Debug, PartialEq, Eq)]
pub struct Decision {
    pub cause: Cause,
    pub entry: PeerMessagePolicyEntry,
    pub ingress: FiberIngressBudget,
}

// Of an invalid message: the cause, and the entry as it is to be stored. It leaves the load in flight.
#[derive(Clone, Copy, Debug, PartialEq, Eq)]
pub struct InvalidDecision {
    pub cause: InvalidCause,
    pub entry: PeerMessagePolicyEntry,
}

// One message out of the message bucket. Where the limit is off the bucket is passed by: it would say no once it is empty.
#[tactic(auto, unfolding(crate::specs::Verdict::take_message, bucket_discrete::specs::DiscreteBucket::DiscreteTryConsumeMeets))]
fn take_message(config: PeerMessagePolicyConfig, level: Level, now_ms: u64) -> DiscreteConsumed
    requires { level.available ≤ config.peer_message_burst }
    ensures { result ≡ take_message config level now_ms }
{
    let bucket = DiscreteTokenBucket {
        interval_ms: config.peer_message_interval_ms,
        capacity: config.peer_message_burst,
        available: level.available as u32,
        last_refill_ms: level.last_refill_ms,
    };
    if config.message_limit_disabled() {
        return Answered {
            state: bucket,
            answer: Ok(()),
        };
    }
    bucket.try_consume(now_ms)
}

// The message's bytes out of the byte bucket.
fn take_bytes(config: PeerMessagePolicyConfig, level: Level, size: u64, now_ms: u64) -> ByteConsumed
    requires { level.available ≤ config.peer_message_burst_bytes }
    ensures { result ≡ take_bytes config level size now_ms }
{
    let bucket = ByteTokenBucket {
        config: ByteRateLimitConfig::new(
            config.peer_message_rate_bytes_per_sec,
            config.peer_message_burst_bytes,
        ),
        available_bytes: Amount::from_u64(level.available),
        last_refill_ms: level.last_refill_ms,
    };
    bucket.try_consume(size, now_ms)
}

// The entry with the charged copies of its buckets; what they hold fits a u64.
fn with_buckets(
    e: PeerMessagePolicyEntry,
    messages: DiscreteTokenBucket,
    bytes: ByteTokenBucket,
) -> PeerMessagePolicyEntry
    requires { natural (value bytes.available_bytes) < 18446744073709551616 }
    ensures { result ≡ with_buckets e messages bytes }
{
    PeerMessagePolicyEntry {
        messages: Level {
            available: messages.available as u64,
            last_refill_ms: messages.last_refill_ms,
        },
        bytes: Level {
            available: bytes.available_bytes.to_u64(),
            last_refill_ms: bytes.last_refill_ms,
        },
        ..e
    }
}

fn reaches_ban(config: PeerMessagePolicyConfig, w: ViolationWindow) -> bool
    ensures { result ≡ reaches_ban config w }
{
    !config.ban_disabled() && w.count >= config.violation_ban_threshold as u64
}

// A bucket fell short: the violation is counted, and may begin a ban. The buckets stay as they were.
#[tactic(auto, unfolding(crate::specs::Verdict::violated))]
fn violated(
    config: PeerMessagePolicyConfig,
    ingress: FiberIngressBudget,
    entry: PeerMessagePolicyEntry,
    now_ms: u64,
    cause: Cause,
) -> Decision
    ensures { result ≡ violated config ingress entry now_ms cause }
{
    let counted = entry
        .rate_limit_violations
        .record(now_ms, config.ban_duration_ms);
    let noticed = PeerMessagePolicyEntry {
        rate_limit_violations: counted,
        ..entry
    };
    if reaches_ban(config, counted) {
        return Decision {
            cause: Cause::BanBegun,
            entry: noticed.ban(now_ms, config.ban_duration_ms),
            ingress,
        };
    }
    Decision {
        cause,
        entry: noticed,
        ingress,
    }
}

// Both buckets pass, and these are their charged copies: where the ceiling has no room they are thrown away.
fn ceiling_decides(
    ingress: FiberIngressBudget,
    entry: PeerMessagePolicyEntry,
    messages: DiscreteTokenBucket,
    bytes: ByteTokenBucket,
    reservation: Result<FiberIngressBudget, NotReserved>,
) -> Decision
    requires { natural (value bytes.available_bytes) < 18446744073709551616 }
    ensures { result ≡ ceiling_decides ingress entry (with_buckets entry messages bytes) reservation }
{
    match reservation {
        Ok(after) => Decision {
            cause: Cause::Allowed,
            entry: with_buckets(entry, messages, bytes),
            ingress: after,
        },
        Err(NotReserved::NoSlot) => Decision {
            cause: Cause::Short(Shortage::Slot),
            entry,
            ingress,
        },
        Err(NotReserved::BytesShort(short)) => Decision {
            cause: Cause::Short(Shortage::CeilingBytes(short)),
            entry,
            ingress,
        },
        Err(NotReserved::Refused(number)) => Decision {
            cause: Cause::Refused(number),
            entry,
            ingress,
        },
    }
}

// A message on an entry that is not banned: the message bucket, then the byte bucket, then the ceiling, whose answer is given.
#[tactic(auto, unfolding(crate::specs::Verdict::decision))]
pub fn decide(
    config: PeerMessagePolicyConfig,
    ingress: FiberIngressBudget,
    entry: PeerMessagePolicyEntry,
    size: u64,
    now_ms: u64,
    reservation: Result<FiberIngressBudget, NotReserved>,
) -> Decision
    requires { entry_sound config entry ≡ true }
    ensures { result ≡ decision config ingress entry size now_ms reservation }
{
    let used = entry.used(now_ms, config.ban_duration_ms);
    let messages = take_message(config, used.messages, now_ms);
    if messages.answer.is_err() {
        return violated(
            config,
            ingress,
            used,
            now_ms,
            Cause::Short(Shortage::Messages),
        );
    }
    let bytes = take_bytes(config, used.bytes, size, now_ms);
    let short = match bytes.answer {
        Ok(()) => return ceiling_decides(ingress, used, messages.state, bytes.state, reservation),
        Err(NotGiven::Short(short)) => short,
        // never: the level makes a sound bucket
        Err(NotGiven::Refused(_)) => 0,
    };
    let cause = Cause::Short(Shortage::Bytes(short));
    violated(config, ingress, used, now_ms, cause)
}

// An invalid message on an entry that is not banned: it is counted in a window of its own, and may begin a ban too.
#[tactic(auto, unfolding(crate::specs::Verdict::noted, crate::specs::Verdict::invalid_decision))]
pub fn decide_invalid(
    config: PeerMessagePolicyConfig,
    entry: PeerMessagePolicyEntry,
    now_ms: u64,
) -> InvalidDecision
    ensures { result ≡ invalid_decision config entry now_ms }
{
    let used = entry.used(now_ms, config.ban_duration_ms);
    let counted = used.invalid_messages.record(now_ms, config.ban_duration_ms);
    let noticed = PeerMessagePolicyEntry {
        invalid_messages: counted,
        ..used
    };
    if reaches_ban(config, counted) {
        return InvalidDecision {
            cause: InvalidCause::BanBegun,
            entry: noticed.ban(now_ms, config.ban_duration_ms),
        };
    }
    InvalidDecision {
        cause: InvalidCause::Noted,
        entry: noticed,
    }
}
