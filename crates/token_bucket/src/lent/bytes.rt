// The bucket that counts bytes, lent and altered.
ghost use Rattle.bucket_bytes.specs.ByteBucket.{ByteRefillMeets, ByteTryConsumeMeets, ByteReserveMeets, ByteRefundMeets};

use bucket_bytes::bytes::ByteTokenBucket;
use bucket_terms::answer::NotGiven;
use refusal::Refusal;

// Brings the bucket up to a time.
pub fn refill(bucket: &mut ByteTokenBucket, now_ms: u64) -> Result<(), Refusal>
    ensures { ByteRefillMeets bucket.old now_ms (record { state = bucket.new; answer = result }) }
{
    let after = bucket.refill(now_ms);
    *bucket = after.state;
    after.answer
}

// Takes the bytes if they are there. A no keeps the refill and says how many were missing, at most 2^64 - 1.
pub fn try_consume(bucket: &mut ByteTokenBucket, bytes: u64, now_ms: u64) -> Result<(), NotGiven>
    ensures { ByteTryConsumeMeets bucket.old bytes now_ms (record { state = bucket.new; answer = result }) }
{
    let after = bucket.try_consume(bytes, now_ms);
    *bucket = after.state;
    after.answer
}

// Takes the bytes in any case, into debt where need be, and says how long the sender must wait.
pub fn reserve(bucket: &mut ByteTokenBucket, bytes: u64, now_ms: u64) -> Result<u64, Refusal>
    ensures { ByteReserveMeets bucket.old bytes now_ms (record { state = bucket.new; answer = result }) }
{
    let after = bucket.reserve(bytes, now_ms);
    *bucket = after.state;
    after.answer
}

// Gives bytes back that were not sent after all.
pub fn refund(bucket: &mut ByteTokenBucket, bytes: u64, now_ms: u64) -> Result<(), Refusal>
    ensures { ByteRefundMeets bucket.old bytes now_ms (record { state = bucket.new; answer = result }) }
{
    let after = bucket.refund(bytes, now_ms);
    *bucket = after.state;
    after.answer
}
