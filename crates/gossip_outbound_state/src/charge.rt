// What the calls do with buckets, on values: the global one first, then the peer's.
ghost use Rattle.std.specs.Prelude.{◌≡◌, true};
ghost use Rattle.bucket_bytes.specs.ByteBucket.{byte_sound, byte_peek_delay_after_refill, byte_refund, byte_has_debt};
ghost use Rattle.gossip_outbound_state.specs.State.{exceeds_burst, charge_both, promise_both};

use bucket_bytes::bytes::ByteTokenBucket;
use bucket_terms::limit::ByteRateLimitConfig;

// Two buckets that gave what was asked.
#[derive(Clone, Copy, Debug, PartialEq, Eq)]
pub struct Charged {
    pub global: ByteTokenBucket,
    pub peer: ByteTokenBucket,
}

// Two buckets that promised what was asked, and the longer of the two delays.
#[derive(Clone, Copy, Debug, PartialEq, Eq)]
pub struct Promised {
    pub global: ByteTokenBucket,
    pub peer: ByteTokenBucket,
    pub delay_ms: u64,
}

// Both buckets are asked, and what they gave is kept only where both gave.
pub fn charge_both(
    global: ByteTokenBucket,
    peer: ByteTokenBucket,
    bytes: u64,
    now_ms: u64,
) -> Option<Charged>
    requires global_sound { byte_sound global ≡ true }
    requires peer_sound { byte_sound peer ≡ true }
    ensures { result ≡ charge_both global peer bytes now_ms }
{
    let first = global.try_consume(bytes, now_ms);
    first.answer.ok()?;
    let second = peer.try_consume(bytes, now_ms);
    second.answer.ok()?;
    Some(Charged {
        global: first.state,
        peer: second.state,
    })
}

// Both buckets promise the bytes, into debt where need be.
pub fn promise_both(
    global: ByteTokenBucket,
    peer: ByteTokenBucket,
    bytes: u64,
    now_ms: u64,
) -> Promised
    requires global_sound { byte_sound global ≡ true }
    requires peer_sound { byte_sound peer ≡ true }
    ensures { result ≡ promise_both global peer bytes now_ms }
{
    let first = global.reserve(bytes, now_ms);
    let second = peer.reserve(bytes, now_ms);
    Promised {
        global: first.state,
        peer: second.state,
        delay_ms: first.answer.unwrap_or(0).max(second.answer.unwrap_or(0)),
    }
}

// The bucket with bytes given back.
pub fn refunded(b: ByteTokenBucket, bytes: u64, now_ms: u64) -> ByteTokenBucket
    requires { byte_sound b ≡ true }
    ensures { result ≡ byte_refund b bytes now_ms }
{
    b.refund(bytes, now_ms).state
}

// How long a sender of these bytes would have to wait for the bucket.
pub fn delay_of(b: ByteTokenBucket, bytes: u64, now_ms: u64) -> u64
    requires { byte_sound b ≡ true }
    ensures { result ≡ byte_peek_delay_after_refill b bytes now_ms }
{
    b.peek_delay_after_refill(bytes, now_ms).unwrap_or(0)
}

// Whether the bucket is in debt.
pub fn in_debt(b: ByteTokenBucket, now_ms: u64) -> bool
    requires { byte_sound b ≡ true }
    ensures { result ≡ byte_has_debt b now_ms }
{
    b.has_debt(now_ms).unwrap_or(false)
}

// Whether the bytes are more than a full bucket has, where the limit is on.
pub fn exceeds_burst(config: ByteRateLimitConfig, bytes: u64) -> bool
    ensures { result ≡ exceeds_burst config bytes }
{
    !config.is_disabled() && bytes > config.burst_bytes
}
