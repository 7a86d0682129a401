// The C functions of crate `c_snapshot` as a static library: snapshots of a peer policy. Each calls that crate's function of the same
// name, by the same contract. `scripts/archive` writes the library to target/native/libc_snapshot.a, by which name include/uglezmir.h
// has it.
#![tactic(auto)]

ghost use Rattle.c_snapshot.specs.Exported.{PlaceExported, ReadExported, RowExported, WriteExported};

use c_snapshot::{parts, policy};

#[unsafe(no_mangle)]
pub extern "C" fn uglezmir_snapshot_place(snapshot: &[u8], kind: u32, place: &mut [u64; 2]) -> u32
    ensures { PlaceExported snapshot.now kind place.old result place.new }
{
    parts::uglezmir_snapshot_place(snapshot, kind, place)
}

#[unsafe(no_mangle)]
pub extern "C" fn uglezmir_snapshot_row(
    snapshot: &[u8],
    at: u64,
    key: &mut [u8; 33],
    numbers: &mut [u64; 12],
) -> u32
    ensures { RowExported snapshot.now at key.old numbers.old result key.new numbers.new }
{
    parts::uglezmir_snapshot_row(snapshot, at, key, numbers)
}

#[unsafe(no_mangle)]
pub extern "C" fn uglezmir_snapshot_write(
    longs: &[u64; 8],
    shorts: &[u32; 4],
    table: &[u8],
    output: &mut [u8],
    length: &mut u64,
) -> u32
    ensures { WriteExported longs.now shorts.now table.now output.old length.old result output.new length.new }
{
    policy::uglezmir_snapshot_write(longs, shorts, table, output, length)
}

#[unsafe(no_mangle)]
pub extern "C" fn uglezmir_snapshot_read(
    longs: &mut [u64; 8],
    shorts: &mut [u32; 4],
    snapshot: &[u8],
    table: &mut [u8],
) -> u32
    ensures { ReadExported longs.old shorts.old snapshot.now table.old result longs.new shorts.new table.new }
{
    policy::uglezmir_snapshot_read(longs, shorts, snapshot, table)
}
