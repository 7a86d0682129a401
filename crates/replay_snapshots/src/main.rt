// Replays recorded snapshots: a record of standard input says what is lent and asked, and a snapshot stands behind it, good or damaged; a
// line of standard output gives what the four C functions of crate `c_snapshot` answer, and a checksum of all that was lent to them.
// `oracle/record` wrote both files, from states of the unchanged Rust; what a record does stands at the top of
// `oracle/checks/src/lists/snapshots.rs`.
#![tactic(auto)]

mod calls;

use replay::program;
use replay::record::Record;

fn main(rt: HostRuntime) {
    let mut snapshot = [0u8; 2304];
    let mut table = [0u8; 2304];
    let mut output = [0u8; 2304];
    program::for_each_record(&rt, |r| {
        answer(&rt, r, &mut snapshot, &mut table, &mut output)
    });
}

fn cut(rt: &HostRuntime) -> bool {
    program::print_cut(rt);
    false
}

// Answers whether to go on. A record that asks for more memory than there is counts as cut.
fn answer(
    rt: &HostRuntime,
    r: Record,
    snapshot: &mut [u8],
    table: &mut [u8],
    output: &mut [u8],
) -> bool {
    let length = r.first as usize;
    let table_lent = r.second as usize;
    let output_lent = r.third as usize;
    if length > snapshot.len() || table_lent > table.len() || output_lent > output.len() {
        return cut(rt);
    }
    let snapshot = &mut snapshot[..length];
    if !is_read(rt, snapshot) {
        return cut(rt);
    }
    let line = calls::answered(
        r,
        snapshot,
        &mut table[..table_lent],
        &mut output[..output_lent],
    );
    program::print(rt, line)
}

// Reads the snapshot behind a record, and answers whether all of it was there.
fn is_read(rt: &HostRuntime, snapshot: &mut [u8]) -> bool {
    standard::read(rt, snapshot) == Some(snapshot.len())
}
