// What the programs over crate `trace` write: the lines that a scan hands out, on standard output.
#![tactic(auto)]

use trace::scan::Scan;
use trace_lines::line::{LINE_SIZE, TraceLine};

// Writes what the scan of an input hands out, and answers whether that went well; behind a line that could not be written comes no
// other.
//
// A proved loop has to end: rounds are counted up to a number that no run uses up, since a scan hands out at most one line for
// each of the input's.
pub fn write_answers(rt: &HostRuntime, input: &[u8], table: &mut [u8]) -> bool {
    let mut scan = Scan::open(input);
    for _ in 0..u64::MAX {
        let Ok(handed) = scan.next(input, table) else {
            return true;
        };
        if !write_line(rt, handed.line) {
            return false;
        }
        scan = handed.scan;
    }
    false
}

// A line that a scan hands out is never longer than its bytes.
fn write_line(rt: &HostRuntime, line: TraceLine) -> bool {
    standard::write(rt, &line.bytes[..line.length.min(LINE_SIZE)])
}
