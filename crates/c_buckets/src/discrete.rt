// The discrete bucket: 0 makes a full one of the words' interval and capacity, 1 refills, 2 takes a token, 3 asks whether it is full.
ghost use Rattle.std.specs.Prelude.{◌≡◌};
ghost use Rattle.c_buckets.specs.Discrete.{discrete_operation, discrete_of, discrete_longs, discrete_shorts, DiscreteDoes, DiscreteLeft, DiscreteExported};

use c_terms::reply;
use c_terms::reply::Reply;
use refusal::Answered;
use token_bucket::discrete::DiscreteTokenBucket;

#[derive(Clone, Copy, Debug, PartialEq, Eq)]
pub enum DiscreteOperation {
    New,
    Refill,
    TryConsume,
    IsFull,
    Unknown,
}

impl From<u32> for DiscreteOperation {
    ghost from_gives = { λ n o. o ≡ discrete_operation n };

    fn from(n: u32) -> DiscreteOperation {
        match n {
            0 => DiscreteOperation::New,
            1 => DiscreteOperation::Refill,
            2 => DiscreteOperation::TryConsume,
            3 => DiscreteOperation::IsFull,
            _ => DiscreteOperation::Unknown,
        }
    }
}

// The bucket after a call, and what the call said.
pub type DiscreteDone = Answered<DiscreteTokenBucket, Reply>;

fn bucket_of(longs: &[u64; 2], shorts: &[u32; 2]) -> DiscreteTokenBucket
    ensures { result ≡ discrete_of longs.now shorts.now }
{
    DiscreteTokenBucket {
        interval_ms: longs[0],
        capacity: shorts[0],
        available: shorts[1],
        last_refill_ms: longs[1],
    }
}

fn done(operation: DiscreteOperation, b: DiscreteTokenBucket, now_ms: u64) -> DiscreteDone
    ensures { DiscreteDoes operation b now_ms result }
{
    match operation {
        DiscreteOperation::New => Answered {
            state: DiscreteTokenBucket::new(b.interval_ms, b.capacity),
            answer: Reply::plain(reply::DONE),
        },
        DiscreteOperation::Refill => reply::replied(b.refill(now_ms)),
        DiscreteOperation::TryConsume => reply::replied(b.try_consume(now_ms)),
        DiscreteOperation::IsFull => Answered {
            state: b,
            answer: b.is_full().into(),
        },
        DiscreteOperation::Unknown => Answered {
            state: b,
            answer: Reply::plain(reply::UNKNOWN),
        },
    }
}

// Kept: which words a state has is its own, so one function for all would be no shorter. On a refusal nothing is left.
fn leave(longs: &mut [u64; 2], shorts: &mut [u32; 2], value: &mut u64, d: DiscreteDone) -> u32
    ensures { DiscreteLeft d longs.old shorts.old value.old result longs.new shorts.new value.new }
{
    if !d.answer.is_refusal() {
        *longs = [d.state.interval_ms, d.state.last_refill_ms];
        *shorts = [d.state.capacity, d.state.available];
        *value = d.answer.value;
    }
    d.answer.number
}

#[unsafe(no_mangle)]
pub extern "C" fn uglezmir_discrete(
    operation: u32,
    longs: &mut [u64; 2],
    shorts: &mut [u32; 2],
    now_ms: u64,
    value: &mut u64,
) -> u32
    ensures { DiscreteExported operation longs.old shorts.old now_ms value.old result longs.new shorts.new value.new }
{
    let b = bucket_of(longs, shorts);
    let d = done(operation.into(), b, now_ms);
    leave(longs, shorts, value, d)
}
