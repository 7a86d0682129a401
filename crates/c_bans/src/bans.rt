// The gossip bans: 1 makes a tracker of 1,024 peers with the words' settings, 2 one of the words' limit, 3 counts a violation, 4 asks
// whether a peer is banned, 5 for its score, 6 forgets expired entries, 7 asks how many peers have an entry.
ghost use Rattle.std.specs.Prelude.{◌≡◌};
ghost use Rattle.c_bans.specs.Blame.{blame_of};
ghost use Rattle.c_bans.specs.Bans.{ban_operation, tracker_of, ban_longs, ban_shorts, BlameDoes, BanDoes, BanExported};

use super::blame;
use c_terms::reply;
use c_terms::reply::Reply;
use gossip_bans::tracker::GossipBanTracker;
use gossip_settings::ban::GossipBanConfig;
use pubkey::Pubkey;
use refusal::Answered;

#[derive(Clone, Copy, Debug, PartialEq, Eq)]
pub enum BanOperation {
    New,
    WithMaxEntries,
    RecordViolation,
    IsBanned,
    Score,
    PruneExpired,
    TrackedPeers,
    Unknown,
}

impl From<u32> for BanOperation {
    ghost from_gives = { λ n o. o ≡ ban_operation n };

    fn from(n: u32) -> BanOperation {
        match n {
            1 => BanOperation::New,
            2 => BanOperation::WithMaxEntries,
            3 => BanOperation::RecordViolation,
            4 => BanOperation::IsBanned,
            5 => BanOperation::Score,
            6 => BanOperation::PruneExpired,
            7 => BanOperation::TrackedPeers,
            _ => BanOperation::Unknown,
        }
    }
}

// The tracker after a call, and what the call said.
pub type BanDone = Answered<GossipBanTracker, Reply>;

fn tracker_of(longs: &[u64; 3], shorts: &[u32; 1]) -> GossipBanTracker
    ensures { result ≡ tracker_of longs.now shorts.now }
{
    GossipBanTracker {
        config: GossipBanConfig {
            threshold: shorts[0],
            duration_ms: longs[0],
        },
        max_entries: longs[1],
        rows: longs[2],
    }
}

fn longs_of(t: GossipBanTracker) -> [u64; 3]
    ensures { result ≡ ban_longs t }
{
    [t.config.duration_ms, t.max_entries, t.rows]
}

fn shorts_of(t: GossipBanTracker) -> [u32; 1]
    ensures { result ≡ ban_shorts t }
{
    [t.config.threshold]
}

fn blamed(
    t: GossipBanTracker,
    table: &mut [u8],
    peer: Pubkey,
    violation: u32,
    now_ms: u64,
) -> BanDone
    ensures { BlameDoes (blame_of violation) t table.old peer now_ms result table.new }
{
    match blame::blame_of(violation) {
        Some(v) => reply::replied(t.record_violation(table, peer, v, now_ms)),
        None => Answered {
            state: t,
            answer: Reply::plain(reply::UNKNOWN),
        },
    }
}

fn done(
    operation: BanOperation,
    t: GossipBanTracker,
    table: &mut [u8],
    peer: Pubkey,
    violation: u32,
    now_ms: u64,
) -> BanDone
    ensures { BanDoes operation t table.old peer violation now_ms result table.new }
{
    match operation {
        BanOperation::New => reply::made(t, GossipBanTracker::new(t.config, table)),
        BanOperation::WithMaxEntries => reply::made(
            t,
            GossipBanTracker::with_max_entries(t.config, t.max_entries, table),
        ),
        BanOperation::RecordViolation => blamed(t, table, peer, violation, now_ms),
        BanOperation::IsBanned => reply::replied(t.is_banned(table, peer, now_ms)),
        BanOperation::Score => reply::replied(t.score(table, peer, now_ms)),
        BanOperation::PruneExpired => reply::replied(t.prune_expired(table, now_ms)),
        BanOperation::TrackedPeers => Answered {
            state: t,
            answer: t.tracked_peers().into(),
        },
        BanOperation::Unknown => Answered {
            state: t,
            answer: Reply::plain(reply::UNKNOWN),
        },
    }
}

#[unsafe(no_mangle)]
pub extern "C" fn uglezmir_bans(
    operation: u32,
    longs: &mut [u64; 3],
    shorts: &mut [u32; 1],
    table: &mut [u8],
    peer: &[u8; 33],
    violation: u32,
    now_ms: u64,
    value: &mut [u64; 1],
) -> u32
    ensures { BanExported operation longs.old shorts.old table.old peer.now violation now_ms value.old result longs.new shorts.new table.new value.new }
{
    let t = tracker_of(longs, shorts);
    let key = Pubkey { bytes: *peer };
    let d = done(operation.into(), t, table, key, violation, now_ms);
    reply::leave(
        d.answer,
        longs_of(d.state),
        shorts_of(d.state),
        longs,
        shorts,
        value,
    )
}
