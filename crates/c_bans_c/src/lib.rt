// The C functions of crate `c_bans` as a static library: the ban tracker. Each calls that crate's function of the same name, by the same
// contract. `scripts/archive` writes the library to target/native/libc_bans.a, by which name include/uglezmir.h has it.
#![tactic(auto)]

ghost use Rattle.c_bans.specs.Bans.{BanExported};

use c_bans::bans;

#[unsafe(no_mangle)]
pub extern "C" fn uglezmir_bans(
    operation: u32,
    longs: &mut [u64; 3],
    shorts: &mut [u32; 1],
    table: &mut [u8],
    peer: &[u8; 33],
    violation: u32,
    now_ms: u64,
    value: &mut [u64; 1],
) -> u32
    ensures { BanExported operation longs.old shorts.old table.old peer.now violation now_ms value.old result longs.new shorts.new table.new value.new }
{
    bans::uglezmir_bans(
        operation, longs, shorts, table, peer, violation, now_ms, value,
    )
}
