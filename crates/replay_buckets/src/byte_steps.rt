// The recorded steps of the byte bucket.
use crate::answers::{Recorded, agreed, nothing};
use crate::lending;
use refusal::Answered;
use replay::line::Line;
use replay::record;
use replay::record::Record;
use token_bucket::bytes::{ByteRateLimitConfig, ByteTokenBucket};

// The bucket after a step, and what the step answered. A step that changes a bucket is run by value and lent, which must give the same.
pub(crate) fn step(b: ByteTokenBucket, r: Record) -> Answered<ByteTokenBucket, Line> {
    match r.operation {
        4 => Answered {
            state: ByteTokenBucket::new(ByteRateLimitConfig::new(r.first, r.second)),
            answer: nothing(),
        },
        5 => agreed(b.refill(r.first), lending::byte_refill(b, r.first)),
        6 => agreed(
            b.try_consume(r.first, r.second),
            lending::byte_try_consume(b, r.first, r.second),
        ),
        7 => agreed(
            b.reserve(r.first, r.second),
            lending::byte_reserve(b, r.first, r.second),
        ),
        9 => agreed(
            b.refund(r.first, r.second),
            lending::byte_refund(b, r.first, r.second),
        ),
        14 => Answered {
            state: set(r),
            answer: nothing(),
        },
        _ => Answered {
            state: b,
            answer: asked(b, r),
        },
    }
}

// The steps that only ask.
fn asked(b: ByteTokenBucket, r: Record) -> Line {
    match r.operation {
        8 => b.peek_delay_after_refill(r.first, r.second).recorded(),
        10 => b.has_debt(r.first).recorded(),
        11 => Line::empty().decimal(b.burst_bytes()),
        12 => Line::empty().truth(b.is_disabled()),
        _ => Line::empty().text(b"unknown operation").then(r.operation),
    }
}

// Any bucket, an unsound one too.
fn set(r: Record) -> ByteTokenBucket {
    ByteTokenBucket {
        config: ByteRateLimitConfig::new(r.first, r.second),
        available_bytes: record::amount_of(r.third, r.fourth, r.fifth),
        last_refill_ms: r.sixth,
    }
}

pub(crate) fn with_bucket(line: Line, b: ByteTokenBucket) -> Line {
    line.byte(b' ')
        .amount(b.available_bytes)
        .then(b.last_refill_ms)
}
