// The answers as numbers, each with one value.
ghost use Rattle.std.specs.Prelude.{◌≡◌, ltb};
ghost use Rattle.c_terms.specs.Answers.{reply, truth_reply, refusal_reply, refilled_reply, consumed_reply, delay_reply, told_reply, made_done};
ghost use Rattle.c_terms.specs.Left.{Left};

use bucket_terms::answer::NotGiven;
use refusal::{Answered, Refusal};

// Kept: the C interface has numbers for answers. Those below this one are refusals.
pub const ANSWERS: u32 = 256;

pub const NO: u32 = 259;

pub const YES: u32 = 260;
// The call answers nothing, or what it leaves.
pub const DONE: u32 = 261;
// No operation has the number that was given.
pub const UNKNOWN: u32 = 0;

#[derive(Clone, Copy, Debug, PartialEq, Eq)]
pub struct Reply {
    pub number: u32,
    pub value: u64,
}

impl Reply {
    // A number alone.
    pub fn plain(number: u32) -> Reply
        ensures { result ≡ reply number 0 }
    {
        Reply { number, value: 0 }
    }

    pub fn value(value: u64) -> Reply
        ensures { result ≡ reply 261 value }
    {
        Reply {
            number: DONE,
            value,
        }
    }

    // On a refusal nothing is left.
    pub fn is_refusal(self) -> bool
        ensures { result ≡ ltb self.number 256 }
    {
        self.number < ANSWERS
    }
}

impl From<bool> for Reply {
    ghost from_gives = { λ b r. r ≡ truth_reply b };

    fn from(b: bool) -> Reply {
        Reply::plain(if b { YES } else { NO })
    }
}

impl From<Refusal> for Reply {
    ghost from_gives = { λ refusal r. r ≡ refusal_reply refusal };

    fn from(refusal: Refusal) -> Reply {
        Reply::plain(refusal.number())
    }
}

impl From<Result<(), Refusal>> for Reply {
    ghost from_gives = { λ a r. r ≡ refilled_reply a };

    fn from(a: Result<(), Refusal>) -> Reply {
        match a {
            Ok(()) => Reply::plain(DONE),
            Err(refusal) => refusal.into(),
        }
    }
}

// The value of a no is by how much it fell short.
impl From<Result<(), NotGiven>> for Reply {
    ghost from_gives = { λ a r. r ≡ consumed_reply a };

    fn from(a: Result<(), NotGiven>) -> Reply {
        match a {
            Ok(()) => true.into(),
            Err(NotGiven::Short(short)) => Reply {
                number: NO,
                value: short,
            },
            Err(NotGiven::Refused(refusal)) => refusal.into(),
        }
    }
}

impl From<Result<u64, Refusal>> for Reply {
    ghost from_gives = { λ a r. r ≡ delay_reply a };

    fn from(a: Result<u64, Refusal>) -> Reply {
        match a {
            Ok(n) => Reply::value(n),
            Err(refusal) => refusal.into(),
        }
    }
}

impl From<Result<u32, Refusal>> for Reply {
    ghost from_gives = { λ a r. r ≡ delay_reply a };

    fn from(a: Result<u32, Refusal>) -> Reply {
        match a {
            Ok(n) => Reply::value(n.into()),
            Err(refusal) => refusal.into(),
        }
    }
}

impl From<Result<bool, Refusal>> for Reply {
    ghost from_gives = { λ a r. r ≡ told_reply a };

    fn from(a: Result<bool, Refusal>) -> Reply {
        match a {
            Ok(b) => b.into(),
            Err(refusal) => refusal.into(),
        }
    }
}

// What a call handed back, its answer as C is told it.
pub fn replied<S, A: Into<Reply>>(handed: Answered<S, A>) -> Answered<S, Reply>
    ensures { (result.state ≡ handed.state) × A.converts handed.answer result.answer }
{
    Answered {
        state: handed.state,
        answer: handed.answer.into(),
    }
}

// A state that was made, as C is told it; on a refusal the one that the words said.
pub fn made<S: Copy>(said: S, a: Result<S, Refusal>) -> Answered<S, Reply>
    ensures { result ≡ made_done said a }
{
    match a {
        Ok(state) => Answered {
            state,
            answer: Reply::plain(DONE),
        },
        Err(refusal) => Answered {
            state: said,
            answer: refusal.into(),
        },
    }
}

// The number that is returned. The words become these, and the value what is said; on a refusal nothing is left.
pub fn leave<const L: usize, const S: usize>(
    reply: Reply,
    to_longs: [u64; L],
    to_shorts: [u32; S],
    longs: &mut [u64; L],
    shorts: &mut [u32; S],
    value: &mut [u64; 1],
) -> u32
    ensures { Left reply to_longs.entry to_shorts.entry longs.old shorts.old value.old result longs.new shorts.new value.new }
{
    if !reply.is_refusal() {
        *longs = to_longs;
        *shorts = to_shorts;
        *value = [reply.value];
    }
    reply.number
}
