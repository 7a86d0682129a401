// The limiter of channel updates: 1 makes one of 1,024 keys with the words' settings, 2 one of the words' limit, 3 asks for an update to
// be let in, 4 how many keys have a bucket.
ghost use Rattle.std.specs.Prelude.{◌≡◌};
ghost use Rattle.c_terms.specs.Keys.{limiter_key_of};
ghost use Rattle.c_limiter.specs.Limiter.{limiter_operation, limiter_of, limiter_longs, limiter_shorts, LimiterDoes, LimiterExported};

use c_terms::reply;
use c_terms::reply::Reply;
use gossip_limiter::limiter::ChannelUpdateLimiter;
use gossip_settings::channel_update::ChannelUpdateRateLimitConfig;
use pubkey::{ChannelUpdateLimiterKey, OutPoint, Pubkey};
use refusal::Answered;

#[derive(Clone, Copy, Debug, PartialEq, Eq)]
pub enum LimiterOperation {
    New,
    WithMaxEntries,
    TryAcquire,
    TrackedKeys,
    Unknown,
}

impl From<u32> for LimiterOperation {
    ghost from_gives = { λ n o. o ≡ limiter_operation n };

    fn from(n: u32) -> LimiterOperation {
        match n {
            1 => LimiterOperation::New,
            2 => LimiterOperation::WithMaxEntries,
            3 => LimiterOperation::TryAcquire,
            4 => LimiterOperation::TrackedKeys,
            _ => LimiterOperation::Unknown,
        }
    }
}

// The limiter after a call, and what the call said.
pub type LimiterDone = Answered<ChannelUpdateLimiter, Reply>;

fn limiter_of(longs: &[u64; 3], shorts: &[u32; 1]) -> ChannelUpdateLimiter
    ensures { result ≡ limiter_of longs.now shorts.now }
{
    ChannelUpdateLimiter {
        config: ChannelUpdateRateLimitConfig {
            interval_ms: longs[0],
            burst: shorts[0],
        },
        max_entries: longs[1],
        rows: longs[2],
    }
}

fn longs_of(l: ChannelUpdateLimiter) -> [u64; 3]
    ensures { result ≡ limiter_longs l }
{
    [l.config.interval_ms, l.max_entries, l.rows]
}

fn shorts_of(l: ChannelUpdateLimiter) -> [u32; 1]
    ensures { result ≡ limiter_shorts l }
{
    [l.config.burst]
}

fn key_of(peer: &[u8; 33], outpoint: &[u8; 36], side: u32) -> ChannelUpdateLimiterKey
    ensures { result ≡ limiter_key_of peer.now outpoint.now side }
{
    let peer = Pubkey { bytes: *peer };
    let outpoint = OutPoint { bytes: *outpoint };
    ChannelUpdateLimiterKey::new(peer, outpoint, side != 0)
}

fn done(
    operation: LimiterOperation,
    l: ChannelUpdateLimiter,
    table: &mut [u8],
    key: ChannelUpdateLimiterKey,
    now_ms: u64,
) -> LimiterDone
    ensures { LimiterDoes operation l table.old key now_ms result table.new }
{
    match operation {
        LimiterOperation::New => reply::made(l, ChannelUpdateLimiter::new(l.config, table)),
        LimiterOperation::WithMaxEntries => reply::made(
            l,
            ChannelUpdateLimiter::with_max_entries(l.config, l.max_entries, table),
        ),
        LimiterOperation::TryAcquire => reply::replied(l.try_acquire(table, key, now_ms)),
        LimiterOperation::TrackedKeys => Answered {
            state: l,
            answer: l.tracked_keys().into(),
        },
        LimiterOperation::Unknown => Answered {
            state: l,
            answer: Reply::plain(reply::UNKNOWN),
        },
    }
}

#[unsafe(no_mangle)]
pub extern "C" fn uglezmir_limiter(
    operation: u32,
    longs: &mut [u64; 3],
    shorts: &mut [u32; 1],
    table: &mut [u8],
    peer: &[u8; 33],
    outpoint: &[u8; 36],
    side: u32,
    now_ms: u64,
    value: &mut [u64; 1],
) -> u32
    ensures { LimiterExported operation longs.old shorts.old table.old peer.now outpoint.now side now_ms value.old result longs.new shorts.new table.new value.new }
{
    let l = limiter_of(longs, shorts);
    let key = key_of(peer, outpoint, side);
    let d = done(operation.into(), l, table, key, now_ms);
    reply::leave(
        d.answer,
        longs_of(d.state),
        shorts_of(d.state),
        longs,
        shorts,
        value,
    )
}
