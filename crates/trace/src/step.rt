// One event: what the policy answers to it, and the line that says so.
ghost use Rattle.std.specs.Prelude.{◌≡◌};
ghost use Rattle.peer_verdict.specs.Causes.{limit_of};
ghost use Rattle.trace_lines.specs.Lines.{line_of};
ghost use Rattle.trace.specs.Step.{admission_answered, invalid_answered, standing_answered, changed_answered};
ghost use Rattle.trace.specs.Step.{disconnect_word, admit_spoken, invalid_spoken, stopped, stop_text, spoken, spoken_text, StepMeets};
ghost use Rattle.trace.specs.Private.{AnsweredMeets};

use peer_message_policy::answer::{Admission, Invalid, Standing};
use peer_message_policy::policy::PeerMessagePolicy;
use peer_verdict::verdict::{Cause, InvalidCause, Shortage};
use refusal::{Answered, Refusal};
use trace_lines::event::{Event, EventKind};
use trace_lines::line::{TraceLine, Word, answer_line, bad_line, refusal_line};

// What was answered to a line of the input.
#[derive(Clone, Copy)]
pub enum Answer {
    Admit(Cause),
    Invalid(InvalidCause),
    Banned,
    Free,
    Closed,
    Released,
    Refused(Refusal),
    BadLine(u64),
}

// Why nothing more is read behind a line: its call is refused, or the line with this number is bad.
#[derive(Clone, Copy)]
pub enum Stop {
    Refused(Refusal),
    BadLine(u64),
}

impl Stop {
    // The line that says so.
    fn line(self) -> TraceLine
        ensures { result ≡ line_of (stop_text self) }
    {
        match self {
            Stop::Refused(refusal) => refusal_line(refusal.number()),
            Stop::BadLine(number) => bad_line(number),
        }
    }
}

impl From<Stop> for Answer {
    ghost from_gives = { λ stop answer. answer ≡ stopped stop };

    fn from(stop: Stop) -> Answer {
        match stop {
            Stop::Refused(refusal) => Answer::Refused(refusal),
            Stop::BadLine(number) => Answer::BadLine(number),
        }
    }
}

// The answer to an event, the policy after it, the line to write, and whether the trace goes on behind it.
#[derive(Clone, Copy)]
pub struct Stepped {
    pub answer: Answer,
    pub policy: PeerMessagePolicy,
    pub line: TraceLine,
    pub goes_on: bool,
}

// The answer, and the policy to go on with: after a refusal or a bad line it is as it was.
type Told = Answered<PeerMessagePolicy, Answer>;

fn admission_answered(admission: Admission) -> Told
    ensures { result ≡ admission_answered admission }
{
    Answered {
        state: admission.policy,
        answer: Answer::Admit(admission.cause),
    }
}

fn invalid_answered(invalid: Invalid) -> Told
    ensures { result ≡ invalid_answered invalid }
{
    Answered {
        state: invalid.policy,
        answer: Answer::Invalid(invalid.cause),
    }
}

// The policy given is the one before the call.
fn standing_answered(policy: PeerMessagePolicy, standing: Standing) -> Told
    ensures { result ≡ standing_answered policy standing }
{
    match standing {
        Standing::Banned(after) => Answered {
            state: after,
            answer: Answer::Banned,
        },
        Standing::Free(after) => Answered {
            state: after,
            answer: Answer::Free,
        },
        Standing::Refused(refusal) => Answered {
            state: policy,
            answer: Answer::Refused(refusal),
        },
    }
}

// The policy given is the one before the call; the answer given is the one where it was changed.
fn changed_answered(
    policy: PeerMessagePolicy,
    answer: Answer,
    changed: Result<PeerMessagePolicy, Refusal>,
) -> Told
    ensures { result ≡ changed_answered policy answer changed }
{
    match changed {
        Ok(after) => Answered {
            state: after,
            answer,
        },
        Err(refusal) => Answered {
            state: policy,
            answer: Answer::Refused(refusal),
        },
    }
}

// The call that an event from the line with this number asks for.
fn ask(policy: PeerMessagePolicy, table: &mut [u8], event: Event, number: u64) -> Told
    ensures { AnsweredMeets policy table.old event number result table.new }
{
    let key = event.key;
    match event.kind {
        EventKind::Admit => {
            admission_answered(policy.admit(table, key, event.bytes, event.now_ms))
        }
        EventKind::Invalid => invalid_answered(policy.record_invalid(table, key, event.now_ms)),
        EventKind::BanQuery => {
            standing_answered(policy, policy.is_banned(table, key, event.now_ms))
        }
        EventKind::Disconnected => {
            changed_answered(
                policy,
                Answer::Closed,
                policy.on_disconnected(table, key, event.now_ms),
            )
        }
        EventKind::Release => {
            changed_answered(
                policy,
                Answer::Released,
                policy.release_ingress(event.bytes),
            )
        }
        EventKind::Bad => Answered {
            state: policy,
            answer: Answer::BadLine(number),
        },
    }
}

// A disconnect names the limit that ran short: the ceiling, be it by a slot or by bytes.
fn disconnect_word(shortage: Shortage) -> Word
    ensures { result ≡ disconnect_word (limit_of shortage) }
{
    match shortage {
        Shortage::Messages => Word::DisconnectMessages,
        Shortage::Bytes(_) => Word::DisconnectBytes,
        Shortage::Slot => Word::DisconnectCeiling,
        Shortage::CeilingBytes(_) => Word::DisconnectCeiling,
    }
}

fn speak_admit(cause: Cause) -> Result<Word, Stop>
    ensures { result ≡ admit_spoken cause }
{
    match cause {
        Cause::Allowed => Ok(Word::Allow),
        Cause::Short(shortage) => Ok(disconnect_word(shortage)),
        Cause::LiveBan => Ok(Word::Ban),
        Cause::BanBegun => Ok(Word::Ban),
        Cause::Refused(refusal) => Err(Stop::Refused(refusal)),
    }
}

fn speak_invalid(cause: InvalidCause) -> Result<Word, Stop>
    ensures { result ≡ invalid_spoken cause }
{
    match cause {
        InvalidCause::Noted => Ok(Word::Noted),
        InvalidCause::LiveBan => Ok(Word::Banned),
        InvalidCause::BanBegun => Ok(Word::Banned),
        InvalidCause::Refused(refusal) => Err(Stop::Refused(refusal)),
    }
}

// What an answer is spelled as: a word, or why nothing more is read.
pub(crate) fn speak(answer: Answer) -> Result<Word, Stop>
    ensures { result ≡ spoken answer }
{
    match answer {
        Answer::Admit(cause) => speak_admit(cause),
        Answer::Invalid(cause) => speak_invalid(cause),
        Answer::Banned => Ok(Word::Banned),
        Answer::Free => Ok(Word::Free),
        Answer::Closed => Ok(Word::Closed),
        Answer::Released => Ok(Word::Released),
        Answer::Refused(refusal) => Err(Stop::Refused(refusal)),
        Answer::BadLine(number) => Err(Stop::BadLine(number)),
    }
}

// The line that spells it: behind a word stand the numbers of this policy.
pub(crate) fn spoken_line(policy: PeerMessagePolicy, words: Result<Word, Stop>) -> TraceLine
    ensures { result ≡ line_of (spoken_text policy words) }
{
    match words {
        Ok(word) => answer_line(
            word,
            policy.ingress.in_flight_messages,
            policy.ingress.in_flight_bytes,
            policy.rows,
        ),
        Err(stop) => stop.line(),
    }
}

// One event, from the line with this number; the numbers on its line are those after the call.
pub fn step(policy: PeerMessagePolicy, table: &mut [u8], event: Event, number: u64) -> Stepped
    ensures { StepMeets policy table.old event number result table.new }
{
    let answered = ask(policy, table, event, number);
    let after = answered.state;
    let words = speak(answered.answer);
    Stepped {
        answer: answered.answer,
        policy: after,
        line: spoken_line(after, words),
        goes_on: words.is_ok(),
    }
}
