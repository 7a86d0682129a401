// What is kept for one key: the numbers of its bucket, whose settings all rows share, and when it was last used.
ghost use Rattle.std.specs.Prelude.{◌≡◌, ◌≤◌};
ghost use Rattle.gossip_limiter_rows.specs.Entry.{bucket_of, entry_of, is_full, asked_of};
ghost use Rattle.gossip_limiter_rows.specs.Entry.{refilled as refilledBy};

use bucket_discrete::discrete::DiscreteTokenBucket;
use gossip_settings::channel_update::ChannelUpdateRateLimitConfig;
use refusal::Refusal;

// In a row every number is a u64, so more may be available than the burst allows: then the row is unsound.
#[derive(Clone, Copy, Debug, PartialEq, Eq)]
pub struct ChannelUpdateLimiterEntry {
    pub available: u64,
    pub last_refill_ms: u64,
    pub last_used_ms: u64,
}

// An entry after its bucket was asked for a token, and whether there was one.
#[derive(Clone, Copy, Debug, PartialEq, Eq)]
pub struct Asked {
    pub entry: ChannelUpdateLimiterEntry,
    pub answer: Result<bool, Refusal>,
}

// The entry's bucket under the settings.
pub fn bucket_of(
    config: ChannelUpdateRateLimitConfig,
    e: ChannelUpdateLimiterEntry,
) -> DiscreteTokenBucket
    requires { e.available ≤ config.burst }
    ensures { result ≡ bucket_of config e }
{
    DiscreteTokenBucket {
        interval_ms: config.interval_ms,
        capacity: config.burst,
        available: e.available as u32,
        last_refill_ms: e.last_refill_ms,
    }
}

// The entry of a bucket that was last used at a time.
fn entry_of(bucket: DiscreteTokenBucket, last_used_ms: u64) -> ChannelUpdateLimiterEntry
    ensures { result ≡ entry_of bucket last_used_ms }
{
    ChannelUpdateLimiterEntry {
        available: bucket.available as u64,
        last_refill_ms: bucket.last_refill_ms,
        last_used_ms,
    }
}

// The entry with its bucket refilled, last used as before.
pub fn refilled(
    config: ChannelUpdateRateLimitConfig,
    e: ChannelUpdateLimiterEntry,
    now_ms: u64,
) -> ChannelUpdateLimiterEntry
    requires { e.available ≤ config.burst }
    ensures { result ≡ refilledBy config now_ms e }
{
    entry_of(bucket_of(config, e).refill(now_ms).state, e.last_used_ms)
}

// Whether no token is missing.
pub fn is_full(config: ChannelUpdateRateLimitConfig, e: ChannelUpdateLimiterEntry) -> bool
    ensures { result ≡ is_full config e }
{
    e.available == config.burst as u64
}

// Asks a bucket for a token: its entry is then last used now, also where there was none. A refusal, which a sound bucket never gives,
// is a no.
pub fn ask(bucket: DiscreteTokenBucket, now_ms: u64) -> Asked
    requires { bucket.available ≤ bucket.capacity }
    ensures { result ≡ asked_of bucket now_ms }
{
    let after = bucket.try_consume(now_ms);
    Asked {
        entry: entry_of(after.state, now_ms),
        answer: Ok(after.answer.is_ok()),
    }
}
