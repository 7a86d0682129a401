// The byte bucket, under the numbers of the recorded lists: 4 makes a full one of the words' rate and burst, 5 refills, 6 takes
// bytes, 7 promises them, 8 asks for the delay, 9 gives bytes back, 10 asks for debt, 11 for the burst, 12 whether it is off.
ghost use Rattle.std.specs.Prelude.{◌≡◌};
ghost use Rattle.c_buckets.specs.Bytes.{byte_operation, byte_of, ByteDoes, ByteLeft, ByteExported};

use c_terms::reply::Reply;
use c_terms::{amount_words, reply};
use refusal::Answered;
use token_bucket::bytes::{ByteRateLimitConfig, ByteTokenBucket};

#[derive(Clone, Copy, Debug, PartialEq, Eq)]
pub enum ByteOperation {
    New,
    Refill,
    TryConsume,
    Reserve,
    PeekDelay,
    Refund,
    HasDebt,
    BurstBytes,
    IsDisabled,
    Unknown,
}

impl From<u32> for ByteOperation {
    ghost from_gives = { λ n o. o ≡ byte_operation n };

    fn from(n: u32) -> ByteOperation {
        match n {
            4 => ByteOperation::New,
            5 => ByteOperation::Refill,
            6 => ByteOperation::TryConsume,
            7 => ByteOperation::Reserve,
            8 => ByteOperation::PeekDelay,
            9 => ByteOperation::Refund,
            10 => ByteOperation::HasDebt,
            11 => ByteOperation::BurstBytes,
            12 => ByteOperation::IsDisabled,
            _ => ByteOperation::Unknown,
        }
    }
}

// The bucket after a call, and what the call said.
pub type ByteDone = Answered<ByteTokenBucket, Reply>;

fn bucket_of(longs: &[u64; 3], available: &[u32; 5]) -> ByteTokenBucket
    ensures { result ≡ byte_of longs.now available.now }
{
    ByteTokenBucket {
        config: ByteRateLimitConfig::new(longs[0], longs[1]),
        available_bytes: amount_words::amount_of(available),
        last_refill_ms: longs[2],
    }
}

fn done(operation: ByteOperation, b: ByteTokenBucket, bytes: u64, now_ms: u64) -> ByteDone
    ensures { ByteDoes operation b bytes now_ms result }
{
    match operation {
        ByteOperation::New => Answered {
            state: ByteTokenBucket::new(b.config),
            answer: Reply::plain(reply::DONE),
        },
        ByteOperation::Refill => reply::replied(b.refill(now_ms)),
        ByteOperation::TryConsume => reply::replied(b.try_consume(bytes, now_ms)),
        ByteOperation::Reserve => reply::replied(b.reserve(bytes, now_ms)),
        ByteOperation::PeekDelay => Answered {
            state: b,
            answer: b.peek_delay_after_refill(bytes, now_ms).into(),
        },
        ByteOperation::Refund => reply::replied(b.refund(bytes, now_ms)),
        ByteOperation::HasDebt => Answered {
            state: b,
            answer: b.has_debt(now_ms).into(),
        },
        ByteOperation::BurstBytes => Answered {
            state: b,
            answer: Reply::value(b.burst_bytes()),
        },
        ByteOperation::IsDisabled => Answered {
            state: b,
            answer: b.is_disabled().into(),
        },
        ByteOperation::Unknown => Answered {
            state: b,
            answer: Reply::plain(reply::UNKNOWN),
        },
    }
}

// Kept: which words a state has is its own, so one function for all would be no shorter. On a refusal nothing is left.
fn leave(longs: &mut [u64; 3], available: &mut [u32; 5], value: &mut u64, d: ByteDone) -> u32
    ensures { ByteLeft d longs.old available.old value.old result longs.new available.new value.new }
{
    if !d.answer.is_refusal() {
        *longs = [
            d.state.config.rate_bytes_per_sec,
            d.state.config.burst_bytes,
            d.state.last_refill_ms,
        ];
        *available = amount_words::words_of(d.state.available_bytes);
        *value = d.answer.value;
    }
    d.answer.number
}

#[unsafe(no_mangle)]
pub extern "C" fn uglezmir_byte(
    operation: u32,
    longs: &mut [u64; 3],
    available: &mut [u32; 5],
    bytes: u64,
    now_ms: u64,
    value: &mut u64,
) -> u32
    ensures { ByteExported operation longs.old available.old bytes now_ms value.old result longs.new available.new value.new }
{
    let b = bucket_of(longs, available);
    let d = done(operation.into(), b, bytes, now_ms);
    leave(longs, available, value, d)
}
