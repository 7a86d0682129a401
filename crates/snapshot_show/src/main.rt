// snapshot-show: reads a snapshot from standard input, all of it, and then writes it as text to standard output.
// Crate `snapshot_text` has the lines, `standard` reads and writes.
#![tactic(auto)]

ghost use Rattle.std.specs.Prelude.{◌≡◌, ◌<◌, length};
ghost use Rattle.snapshot_text.specs.Shown.{longest_snapshot};

use snapshot_text::line::{LINE_SIZE, ShownLine};
use snapshot_text::scan::Scan;

fn main(rt: HostRuntime) {
    let mut buffer = [0u8; 124025];
    let mut table = [0u8; 123904];
    show_input(&rt, &mut buffer, &mut table);
}

// The buffer holds more than the longest snapshot, so that a longer input is seen to be too long and not cut; the table holds the rows of
// every limit. Of an input that could not be read to its end nothing is shown.
fn show_input(rt: &HostRuntime, buffer: &mut [u8], table: &mut [u8])
    requires longest_snapshot_in_bounds { longest_snapshot < length buffer.old }
    requires table_len { length table.old ≡ 123904 }
{
    if let Some(count) = standard::read(rt, buffer) {
        write_lines(rt, &buffer[..count], table);
    }
}

// Writes the lines that are shown of an input, and answers whether that went well; behind a line that could not be written comes no
// other.
//
// A proved loop has to end: rounds are counted up to a number that no run uses up, since at most 1,024 rows are shown.
fn write_lines(rt: &HostRuntime, input: &[u8], table: &mut [u8]) -> bool {
    let mut scan = Scan::open(input, table);
    for _ in 0..u64::MAX {
        let Some(handed) = scan.next(input) else {
            return true;
        };
        if !write_line(rt, handed.line) {
            return false;
        }
        scan = handed.scan;
    }
    false
}

// A line that is handed out is never longer than its bytes.
fn write_line(rt: &HostRuntime, line: ShownLine) -> bool {
    standard::write(rt, &line.bytes[..line.length.min(LINE_SIZE)])
}
