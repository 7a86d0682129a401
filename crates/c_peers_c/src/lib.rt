// The C functions of crate `c_peers` as a static library: the peers' policy. Each calls that crate's function of the same name, by the
// same contract. `scripts/archive` writes the library to target/native/libc_peers.a, by which name include/uglezmir.h has it.
#![tactic(auto)]

ghost use Rattle.c_peers.specs.Exported.{AdmitExplainedExported, AdmitExported, HeldTimeExported, InFlightExported, IsBannedExported, NewExported, OnDisconnectedExported, RecordInvalidExported, ReleaseIngressExported};

use c_peers::peers;

#[unsafe(no_mangle)]
pub extern "C" fn uglezmir_new(longs: &mut [u64; 8], shorts: &mut [u32; 4], table: &mut [u8]) -> u32
    ensures { NewExported longs.old shorts.old table.old result longs.new shorts.new table.new }
{
    peers::uglezmir_new(longs, shorts, table)
}

#[unsafe(no_mangle)]
pub extern "C" fn uglezmir_admit(
    longs: &mut [u64; 8],
    shorts: &mut [u32; 4],
    table: &mut [u8],
    peer: &[u8; 33],
    bytes: u64,
    now_ms: u64,
) -> u32
    ensures { AdmitExported longs.old shorts.old table.old peer.now bytes now_ms result longs.new shorts.new table.new }
{
    peers::uglezmir_admit(longs, shorts, table, peer, bytes, now_ms)
}

#[unsafe(no_mangle)]
pub extern "C" fn uglezmir_admit_explained(
    longs: &mut [u64; 8],
    shorts: &mut [u32; 4],
    table: &mut [u8],
    peer: &[u8; 33],
    bytes: u64,
    now_ms: u64,
    cause: &mut [u64; 2],
) -> u32
    ensures { AdmitExplainedExported longs.old shorts.old table.old peer.now bytes now_ms cause.old result longs.new shorts.new table.new cause.new }
{
    peers::uglezmir_admit_explained(longs, shorts, table, peer, bytes, now_ms, cause)
}

#[unsafe(no_mangle)]
pub extern "C" fn uglezmir_record_invalid(
    longs: &mut [u64; 8],
    shorts: &mut [u32; 4],
    table: &mut [u8],
    peer: &[u8; 33],
    now_ms: u64,
) -> u32
    ensures { RecordInvalidExported longs.old shorts.old table.old peer.now now_ms result longs.new shorts.new table.new }
{
    peers::uglezmir_record_invalid(longs, shorts, table, peer, now_ms)
}

#[unsafe(no_mangle)]
pub extern "C" fn uglezmir_is_banned(
    longs: &mut [u64; 8],
    shorts: &mut [u32; 4],
    table: &mut [u8],
    peer: &[u8; 33],
    now_ms: u64,
) -> u32
    ensures { IsBannedExported longs.old shorts.old table.old peer.now now_ms result longs.new shorts.new table.new }
{
    peers::uglezmir_is_banned(longs, shorts, table, peer, now_ms)
}

#[unsafe(no_mangle)]
pub extern "C" fn uglezmir_on_disconnected(
    longs: &mut [u64; 8],
    shorts: &mut [u32; 4],
    table: &mut [u8],
    peer: &[u8; 33],
    now_ms: u64,
) -> u32
    ensures { OnDisconnectedExported longs.old shorts.old table.old peer.now now_ms result longs.new shorts.new table.new }
{
    peers::uglezmir_on_disconnected(longs, shorts, table, peer, now_ms)
}

#[unsafe(no_mangle)]
pub extern "C" fn uglezmir_release_ingress(
    longs: &mut [u64; 8],
    shorts: &mut [u32; 4],
    bytes: u64,
) -> u32
    ensures { ReleaseIngressExported longs.old shorts.old bytes result longs.new shorts.new }
{
    peers::uglezmir_release_ingress(longs, shorts, bytes)
}

#[unsafe(no_mangle)]
pub extern "C" fn uglezmir_in_flight(
    longs: &[u64; 8],
    shorts: &[u32; 4],
    numbers: &mut [u64; 2],
) -> u32
    ensures { InFlightExported longs.now shorts.now numbers.old result numbers.new }
{
    peers::uglezmir_in_flight(longs, shorts, numbers)
}

#[unsafe(no_mangle)]
pub extern "C" fn uglezmir_held_time(
    longs: &[u64; 8],
    shorts: &[u32; 4],
    table: &[u8],
    peer: &[u8; 33],
    given_ms: u64,
    held: &mut u64,
) -> u32
    ensures { HeldTimeExported longs.now shorts.now table.now peer.now given_ms held.old result held.new }
{
    peers::uglezmir_held_time(longs, shorts, table, peer, given_ms, held)
}
