// Replays recorded traces: standard input holds for each its length as eight little-endian bytes, then the trace; standard output
// gets `trace K` and what crate `trace_output`, which the trace program calls too, writes for it. `oracle/record` wrote both files,
// from the unchanged Rust.
//
// The table is lent from one trace to the next as it was left: what the scan hands out does not depend on what the table held.
#![tactic(auto)]

mod parts;

use replay::line::Line;
use replay::program;
use replay::program::Next;
use trace_output::write_answers;

fn main(rt: HostRuntime) {
    let mut buffer = [0u8; 65537];
    let mut table = [0u8; 30976];
    replay(&rt, &mut buffer, &mut table);
}

// A proved loop has to end, and nothing says that the input does: so the traces are counted up to a number that no run reaches.
fn replay(rt: &HostRuntime, buffer: &mut [u8], table: &mut [u8]) {
    for number in 1..u64::MAX {
        if !replay_next(rt, number, buffer, table) {
            return;
        }
    }
}

// Answers the next trace, and whether to go on.
fn replay_next(rt: &HostRuntime, number: u64, buffer: &mut [u8], table: &mut [u8]) -> bool {
    match parts::next(rt, buffer) {
        Next::Whole(trace) => write_title(rt, number) && write_answers(rt, trace, table),
        Next::Cut => {
            program::print_cut(rt);
            false
        }
        Next::End => false,
    }
}

// Writes `trace K`.
fn write_title(rt: &HostRuntime, number: u64) -> bool {
    program::print(rt, Line::empty().text(b"trace").then(number))
}
