// What is kept of one peer: the four numbers of its row, behind its key. They are a byte bucket without its settings, which all peers
// share.
//
// In a row every number is a u64, so a sign handed in may be anything: no function here asks for a sound entry.
ghost use Rattle.std.specs.Prelude.{◌≡◌, ◌+◌, ◌*◌};
ghost use Rattle.gossip_outbound_rows.specs.Entry.{amount_from, bucket_of, sign_of, entry_of, entry_sound};

use amount::Amount;
use bucket_bytes::bytes::ByteTokenBucket;
use bucket_terms::limit::ByteRateLimitConfig;

// `sign` is 0 for plus and 1 for minus; `low` and `high` are the halves of the magnitude.
#[derive(Clone, Copy, Debug, PartialEq, Eq)]
pub struct OutboundEntry {
    pub sign: u64,
    pub low: u64,
    pub high: u64,
    pub last_refill_ms: u64,
}

// The amount of a sign and two halves.
fn amount_from(sign: u64, low: u64, high: u64) -> Amount
    ensures { result ≡ amount_from sign low high }
{
    let limbs = [
        (low % 0x1_0000_0000) as u32,
        (low / 0x1_0000_0000) as u32,
        (high % 0x1_0000_0000) as u32,
        (high / 0x1_0000_0000) as u32,
    ];
    Amount {
        negative: sign == 1,
        limbs,
    }
}

// The bucket that an entry stands for, of these settings.
pub fn bucket_of(config: ByteRateLimitConfig, e: OutboundEntry) -> ByteTokenBucket
    ensures { result ≡ bucket_of config e }
{
    ByteTokenBucket {
        config,
        available_bytes: amount_from(e.sign, e.low, e.high),
        last_refill_ms: e.last_refill_ms,
    }
}

fn sign_of(negative: bool) -> u64
    ensures { result ≡ sign_of negative }
{
    u64::from(negative)
}

// Two limbs as one number.
fn joined(lower: u32, upper: u32) -> u64
    ensures { result ≡ lower + 4294967296 * upper }
{
    lower as u64 + 0x1_0000_0000 * (upper as u64)
}

// The entry of a bucket.
pub fn entry_of(b: ByteTokenBucket) -> OutboundEntry
    ensures { result ≡ entry_of b }
{
    let limbs = b.available_bytes.limbs;
    OutboundEntry {
        sign: sign_of(b.available_bytes.negative),
        low: joined(limbs[0], limbs[1]),
        high: joined(limbs[2], limbs[3]),
        last_refill_ms: b.last_refill_ms,
    }
}

// The rules of an entry under these settings: a sign, and a bucket that is sound.
pub fn is_sound(config: ByteRateLimitConfig, e: OutboundEntry) -> bool
    ensures { result ≡ entry_sound config e }
{
    e.sign <= 1 && bucket_bytes::bytes::is_sound(bucket_of(config, e))
}
