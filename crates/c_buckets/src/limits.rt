// The settings of a byte bucket: 0 leaves the global default, 1 the peers' default, 2 asks whether the limit is off.
ghost use Rattle.std.specs.Prelude.{◌≡◌};
ghost use Rattle.c_buckets.specs.Limits.{limit_operation, limit_of, limit_done, LimitLeft, LimitExported};

use c_terms::reply;
use c_terms::reply::Reply;
use refusal::Answered;
use token_bucket::bytes::ByteRateLimitConfig;

#[derive(Clone, Copy, Debug, PartialEq, Eq)]
pub enum LimitOperation {
    DefaultGlobal,
    DefaultPeer,
    IsDisabled,
    Unknown,
}

impl From<u32> for LimitOperation {
    ghost from_gives = { λ n o. o ≡ limit_operation n };

    fn from(n: u32) -> LimitOperation {
        match n {
            0 => LimitOperation::DefaultGlobal,
            1 => LimitOperation::DefaultPeer,
            2 => LimitOperation::IsDisabled,
            _ => LimitOperation::Unknown,
        }
    }
}

// The limit after a call, and what the call said.
pub type LimitDone = Answered<ByteRateLimitConfig, Reply>;

fn limit_of(words: &[u64; 2]) -> ByteRateLimitConfig
    ensures { result ≡ limit_of words.now }
{
    ByteRateLimitConfig::new(words[0], words[1])
}

fn done(operation: LimitOperation, limit: ByteRateLimitConfig) -> LimitDone
    ensures { result ≡ limit_done operation limit }
{
    match operation {
        LimitOperation::DefaultGlobal => Answered {
            state: ByteRateLimitConfig::default_global(),
            answer: Reply::plain(reply::DONE),
        },
        LimitOperation::DefaultPeer => Answered {
            state: ByteRateLimitConfig::default_peer(),
            answer: Reply::plain(reply::DONE),
        },
        LimitOperation::IsDisabled => Answered {
            state: limit,
            answer: limit.is_disabled().into(),
        },
        LimitOperation::Unknown => Answered {
            state: limit,
            answer: Reply::plain(reply::UNKNOWN),
        },
    }
}

// Kept: which words a state has is its own, so one function for all would be no shorter. On a refusal nothing is left.
fn leave(words: &mut [u64; 2], d: LimitDone) -> u32
    ensures { LimitLeft d words.old result words.new }
{
    if !d.answer.is_refusal() {
        *words = [d.state.rate_bytes_per_sec, d.state.burst_bytes];
    }
    d.answer.number
}

#[unsafe(no_mangle)]
pub extern "C" fn uglezmir_limit(operation: u32, words: &mut [u64; 2]) -> u32
    ensures { LimitExported operation words.old result words.new }
{
    let limit = limit_of(words);
    let d = done(operation.into(), limit);
    leave(words, d)
}
