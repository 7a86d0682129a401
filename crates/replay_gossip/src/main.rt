// Replays recorded calls of the gossip policy: a record of standard input sets something up or names a call and its operands, a line of
// standard output gives what the C functions of crates `c_bans`, `c_limiter` and `c_gossip` answer: the answer, its value, the rows of both tables, and a checksum of
// the words and of every lent byte after the call. `oracle/record` wrote both files, from the unchanged Rust; what each record does stands
// at the top of `oracle/checks/src/lists/gossip.rs`.
#![tactic(auto)]

mod calls;
mod checksum;
mod held;
mod memory;
mod rows;

use held::{Held, says};
use replay::line::Line;
use replay::program;
use replay::record::Record;

fn main(rt: HostRuntime) {
    let mut first = [0u8; 96560];
    let mut second = [0u8; 96560];
    let mut held = Held::lending(0, 0);
    program::for_each_record(&rt, |r| {
        program::print(&rt, stepped(&mut held, &mut first, &mut second, r))
    });
}

// Kept: each number of the recorded list stands in one match alone; an enum between would only name it once more.
fn stepped(held: &mut Held, first: &mut [u8], second: &mut [u8], r: Record) -> Line {
    match r.operation {
        0 => memory::lend(held, first, second, r),
        1 => held.set_longs(r),
        2 => held.set_more(r),
        3 => held.set_peer(r),
        4 => held.set_outpoint(r),
        5 => return memory::call(held, first, second, r),
        6 => return memory::write(first, second, r),
        7 => return memory::fill_rows(first, second, r),
        8 => held.set_lengths(r),
        _ => return says(b"unknown record"),
    }
    says(b"-")
}
