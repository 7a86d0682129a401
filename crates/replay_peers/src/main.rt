// Replays recorded calls of the peers' policy: a record of standard input names a call and its operands, a line of standard output
// gives what crate `peer_message_policy` answers, the numbers in flight, the number of rows and a checksum of the settings and of every
// lent byte after the call. `oracle/record` wrote both files, from the unchanged Rust; `oracle/README.md` lists the records.
#![tactic(auto)]

mod calls;
mod checksum;
mod held;
mod memory;

use held::{Held, says};
use replay::line::Line;
use replay::program;
use replay::record::Record;

fn main(rt: HostRuntime) {
    let mut table = [0u8; 2304];
    let mut held = Held::nothing();
    program::for_each_record(&rt, |r| {
        let line = stepped(&mut held, &mut table, r);
        finished(&rt, &held, line, &table)
    });
}

fn stepped(held: &mut Held, table: &mut [u8], r: Record) -> Line {
    let lent = held.lent;
    if lent > table.len() {
        return says(b"beyond the table");
    }
    match r.operation {
        0 => memory::settings(held, r),
        1 => memory::make(held, table, r),
        9 => memory::write(table, r),
        10 => memory::set(held, r),
        _ => calls::answered(held, &mut table[..lent], r),
    }
}

// Prints the line with what is held behind it, and answers whether to go on.
fn finished(rt: &HostRuntime, held: &Held, line: Line, table: &[u8]) -> bool {
    if held.lent > table.len() {
        return false;
    }
    let policy = held.policy;
    let whole = line
        .then(policy.ingress.in_flight_messages as u64)
        .then(policy.ingress.in_flight_bytes)
        .then(policy.rows)
        .then(checksum::of(policy, &table[..held.lent]));
    program::print(rt, whole)
}
