// The recorded steps of the discrete bucket.
use crate::answers::{Recorded, agreed, nothing};
use crate::lending;
use refusal::Answered;
use replay::line::Line;
use replay::record::Record;
use token_bucket::discrete::DiscreteTokenBucket;

// The bucket after a step, and what the step answered. A step that changes a bucket is run by value and lent, which must give the same.
pub(crate) fn step(b: DiscreteTokenBucket, r: Record) -> Answered<DiscreteTokenBucket, Line> {
    match r.operation {
        0 => made(b, r.first, r.second),
        1 => agreed(b.refill(r.first), lending::discrete_refill(b, r.first)),
        2 => agreed(
            b.try_consume(r.first),
            lending::discrete_try_consume(b, r.first),
        ),
        3 => Answered {
            state: b,
            answer: b.is_full().recorded(),
        },
        _ => set(b, r),
    }
}

fn made(
    b: DiscreteTokenBucket,
    interval_ms: u64,
    capacity: u64,
) -> Answered<DiscreteTokenBucket, Line> {
    let Ok(capacity) = u32::try_from(capacity) else {
        return too_wide(b);
    };
    Answered {
        state: DiscreteTokenBucket::new(interval_ms, capacity),
        answer: nothing(),
    }
}

// Any bucket, an unsound one too.
fn set(b: DiscreteTokenBucket, r: Record) -> Answered<DiscreteTokenBucket, Line> {
    let (Ok(capacity), Ok(available)) = (u32::try_from(r.second), u32::try_from(r.third)) else {
        return too_wide(b);
    };
    Answered {
        state: DiscreteTokenBucket {
            interval_ms: r.first,
            capacity,
            available,
            last_refill_ms: r.fourth,
        },
        answer: nothing(),
    }
}

fn too_wide(b: DiscreteTokenBucket) -> Answered<DiscreteTokenBucket, Line> {
    Answered {
        state: b,
        answer: Line::empty().text(b"more than 32 bits"),
    }
}

pub(crate) fn with_bucket(line: Line, b: DiscreteTokenBucket) -> Line {
    line.then(b.available as u64).then(b.last_refill_ms)
}
