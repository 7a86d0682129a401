// The bucket that counts messages, lent and altered.
ghost use Rattle.bucket_discrete.specs.DiscreteBucket.{DiscreteRefillMeets, DiscreteTryConsumeMeets};

use bucket_discrete::discrete::DiscreteTokenBucket;
use bucket_terms::answer::NotGiven;
use refusal::Refusal;

// Brings the bucket up to a time.
pub fn refill(bucket: &mut DiscreteTokenBucket, now_ms: u64) -> Result<(), Refusal>
    ensures { DiscreteRefillMeets bucket.old now_ms (record { state = bucket.new; answer = result }) }
{
    let after = bucket.refill(now_ms);
    *bucket = after.state;
    after.answer
}

// Takes one token if there is one. A no keeps the refill.
pub fn try_consume(bucket: &mut DiscreteTokenBucket, now_ms: u64) -> Result<(), NotGiven>
    ensures { DiscreteTryConsumeMeets bucket.old now_ms (record { state = bucket.new; answer = result }) }
{
    let after = bucket.try_consume(now_ms);
    *bucket = after.state;
    after.answer
}
