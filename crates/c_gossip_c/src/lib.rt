// The C functions of crate `c_gossip` as a static library: the gossip state. Each calls that crate's function of the same name, by the
// same contract. `scripts/archive` writes the library to target/native/libc_gossip.a, by which name include/uglezmir.h has it.
#![tactic(auto)]

ghost use Rattle.c_gossip.specs.Gossip.{GossipExported};

use c_gossip::gossip;

#[unsafe(no_mangle)]
pub extern "C" fn uglezmir_gossip(
    operation: u32,
    longs: &mut [u64; 10],
    shorts: &mut [u32; 6],
    ban_table: &mut [u8],
    outbound_table: &mut [u8],
    peer: &[u8; 33],
    violation: u32,
    bytes: u64,
    now_ms: u64,
    value: &mut [u64; 1],
) -> u32
    ensures { GossipExported operation longs.old shorts.old ban_table.old outbound_table.old peer.now violation bytes now_ms value.old result longs.new shorts.new ban_table.new outbound_table.new value.new }
{
    gossip::uglezmir_gossip(
        operation,
        longs,
        shorts,
        ban_table,
        outbound_table,
        peer,
        violation,
        bytes,
        now_ms,
        value,
    )
}
