// The steps that change a bucket, on a bucket that is lent. So each meets the contract of the call by value.
ghost use Rattle.std.specs.Fn.{FnOnceReturnsAtMut};
ghost use Rattle.bucket_discrete.specs.DiscreteBucket.{DiscreteRefillMeets, DiscreteTryConsumeMeets};
ghost use Rattle.bucket_bytes.specs.ByteBucket.{ByteRefillMeets, ByteTryConsumeMeets, ByteReserveMeets, ByteRefundMeets};

use refusal::Answered;
use token_bucket::bytes::{ByteConsumed, ByteRefilled, ByteReserved, ByteTokenBucket};
use token_bucket::discrete::{DiscreteConsumed, DiscreteRefilled, DiscreteTokenBucket};
use token_bucket::lent;

// Lends a copy of the bucket to a step, and hands back what became of it with the answer.
fn on_lent<B, A, F: FnOnce(&mut B) -> A>(mut bucket: B, step: F) -> Answered<B, A>
    requires { F.IsAlwaysCallable step }
    ensures { FnOnceReturnsAtMut F.FnOnce step bucket result.answer result.state }
{
    let answer = step(&mut bucket);
    Answered {
        state: bucket,
        answer,
    }
}

pub(crate) fn discrete_refill(b: DiscreteTokenBucket, now_ms: u64) -> DiscreteRefilled
    ensures { DiscreteRefillMeets b now_ms result }
{
    on_lent(b, |lent| lent::discrete::refill(lent, now_ms))
}

pub(crate) fn discrete_try_consume(b: DiscreteTokenBucket, now_ms: u64) -> DiscreteConsumed
    ensures { DiscreteTryConsumeMeets b now_ms result }
{
    on_lent(b, |lent| lent::discrete::try_consume(lent, now_ms))
}

pub(crate) fn byte_refill(b: ByteTokenBucket, now_ms: u64) -> ByteRefilled
    ensures { ByteRefillMeets b now_ms result }
{
    on_lent(b, |lent| lent::bytes::refill(lent, now_ms))
}

pub(crate) fn byte_try_consume(b: ByteTokenBucket, bytes: u64, now_ms: u64) -> ByteConsumed
    ensures { ByteTryConsumeMeets b bytes now_ms result }
{
    on_lent(b, |lent| lent::bytes::try_consume(lent, bytes, now_ms))
}

pub(crate) fn byte_reserve(b: ByteTokenBucket, bytes: u64, now_ms: u64) -> ByteReserved
    ensures { ByteReserveMeets b bytes now_ms result }
{
    on_lent(b, |lent| lent::bytes::reserve(lent, bytes, now_ms))
}

pub(crate) fn byte_refund(b: ByteTokenBucket, bytes: u64, now_ms: u64) -> ByteRefilled
    ensures { ByteRefundMeets b bytes now_ms result }
{
    on_lent(b, |lent| lent::bytes::refund(lent, bytes, now_ms))
}
