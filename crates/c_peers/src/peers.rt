// The exported functions: a policy is made of the words, the proved call is called, and its answer is left.
ghost use Rattle.std.specs.Prelude.{◌≡◌};
ghost use Rattle.c_peers.specs.Exported.{key_of, NewExported, AdmitExported, AdmitExplainedExported, RecordInvalidExported, IsBannedExported, OnDisconnectedExported, ReleaseIngressExported, InFlightExported, HeldTimeExported};

use c_words::{answers, cause, words};
use peer_message_policy::policy::PeerMessagePolicy;
use pubkey::Pubkey;

fn key_of(peer: &[u8; 33]) -> Pubkey
    ensures { result ≡ key_of peer.now }
{
    Pubkey { bytes: *peer }
}

#[unsafe(no_mangle)]
pub extern "C" fn uglezmir_new(longs: &mut [u64; 8], shorts: &mut [u32; 4], table: &mut [u8]) -> u32
    ensures { NewExported longs.old shorts.old table.old result longs.new shorts.new table.new }
{
    let answer = PeerMessagePolicy::new(words::config_of(longs, shorts), table);
    words::leave(longs, shorts, answers::numbered_changed(answer))
}

// The Rust's answer. The cause is left aside: one function has the call compiled into it, not two.
#[unsafe(no_mangle)]
pub extern "C" fn uglezmir_admit(
    longs: &mut [u64; 8],
    shorts: &mut [u32; 4],
    table: &mut [u8],
    peer: &[u8; 33],
    bytes: u64,
    now_ms: u64,
) -> u32
    ensures { AdmitExported longs.old shorts.old table.old peer.now bytes now_ms result longs.new shorts.new table.new }
{
    let mut cause: [u64; 2] = [0, 0];
    uglezmir_admit_explained(longs, shorts, table, peer, bytes, now_ms, &mut cause)
}

// The same, and the cause is left in `cause`: its number, and by how much its limit ran short.
#[unsafe(no_mangle)]
pub extern "C" fn uglezmir_admit_explained(
    longs: &mut [u64; 8],
    shorts: &mut [u32; 4],
    table: &mut [u8],
    peer: &[u8; 33],
    bytes: u64,
    now_ms: u64,
    cause: &mut [u64; 2],
) -> u32
    ensures { AdmitExplainedExported longs.old shorts.old table.old peer.now bytes now_ms cause.old result longs.new shorts.new table.new cause.new }
{
    let answer = words::policy_of(longs, shorts).admit(table, key_of(peer), bytes, now_ms);
    cause::leave(cause, answer.cause);
    words::leave(longs, shorts, answers::numbered_admission(answer.merge()))
}

#[unsafe(no_mangle)]
pub extern "C" fn uglezmir_record_invalid(
    longs: &mut [u64; 8],
    shorts: &mut [u32; 4],
    table: &mut [u8],
    peer: &[u8; 33],
    now_ms: u64,
) -> u32
    ensures { RecordInvalidExported longs.old shorts.old table.old peer.now now_ms result longs.new shorts.new table.new }
{
    let answer = words::policy_of(longs, shorts).record_invalid(table, key_of(peer), now_ms);
    words::leave(longs, shorts, answers::numbered_invalid(answer))
}

#[unsafe(no_mangle)]
pub extern "C" fn uglezmir_is_banned(
    longs: &mut [u64; 8],
    shorts: &mut [u32; 4],
    table: &mut [u8],
    peer: &[u8; 33],
    now_ms: u64,
) -> u32
    ensures { IsBannedExported longs.old shorts.old table.old peer.now now_ms result longs.new shorts.new table.new }
{
    let answer = words::policy_of(longs, shorts).is_banned(table, key_of(peer), now_ms);
    words::leave(longs, shorts, answers::numbered_standing(answer))
}

#[unsafe(no_mangle)]
pub extern "C" fn uglezmir_on_disconnected(
    longs: &mut [u64; 8],
    shorts: &mut [u32; 4],
    table: &mut [u8],
    peer: &[u8; 33],
    now_ms: u64,
) -> u32
    ensures { OnDisconnectedExported longs.old shorts.old table.old peer.now now_ms result longs.new shorts.new table.new }
{
    let answer = words::policy_of(longs, shorts).on_disconnected(table, key_of(peer), now_ms);
    words::leave(longs, shorts, answers::numbered_changed(answer))
}

#[unsafe(no_mangle)]
pub extern "C" fn uglezmir_release_ingress(
    longs: &mut [u64; 8],
    shorts: &mut [u32; 4],
    bytes: u64,
) -> u32
    ensures { ReleaseIngressExported longs.old shorts.old bytes result longs.new shorts.new }
{
    let answer = words::policy_of(longs, shorts).release_ingress(bytes);
    words::leave(longs, shorts, answers::numbered_changed(answer))
}

// The messages, then the bytes, are left in `numbers`.
#[unsafe(no_mangle)]
pub extern "C" fn uglezmir_in_flight(
    longs: &[u64; 8],
    shorts: &[u32; 4],
    numbers: &mut [u64; 2],
) -> u32
    ensures { InFlightExported longs.now shorts.now numbers.old result numbers.new }
{
    match words::policy_of(longs, shorts).in_flight() {
        Ok(load) => {
            *numbers = [load.in_flight_messages as u64, load.in_flight_bytes];
            answers::DONE
        }
        Err(refusal) => refusal.number(),
    }
}

// The time is left in `held`.
#[unsafe(no_mangle)]
pub extern "C" fn uglezmir_held_time(
    longs: &[u64; 8],
    shorts: &[u32; 4],
    table: &[u8],
    peer: &[u8; 33],
    given_ms: u64,
    held: &mut u64,
) -> u32
    ensures { HeldTimeExported longs.now shorts.now table.now peer.now given_ms held.old result held.new }
{
    match words::policy_of(longs, shorts).held_time(table, key_of(peer), given_ms) {
        Ok(time) => {
            *held = time;
            answers::DONE
        }
        Err(refusal) => refusal.number(),
    }
}
