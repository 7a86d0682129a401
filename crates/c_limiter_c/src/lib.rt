// The C functions of crate `c_limiter` as a static library: the limiter. Each calls that crate's function of the same name, by the same
// contract. `scripts/archive` writes the library to target/native/libc_limiter.a, by which name include/uglezmir.h has it.
#![tactic(auto)]

ghost use Rattle.c_limiter.specs.Limiter.{LimiterExported};

use c_limiter::limiter;

#[unsafe(no_mangle)]
pub extern "C" fn uglezmir_limiter(
    operation: u32,
    longs: &mut [u64; 3],
    shorts: &mut [u32; 1],
    table: &mut [u8],
    peer: &[u8; 33],
    outpoint: &[u8; 36],
    side: u32,
    now_ms: u64,
    value: &mut [u64; 1],
) -> u32
    ensures { LimiterExported operation longs.old shorts.old table.old peer.now outpoint.now side now_ms value.old result longs.new shorts.new table.new value.new }
{
    limiter::uglezmir_limiter(
        operation, longs, shorts, table, peer, outpoint, side, now_ms, value,
    )
}
