// The exported functions: a scan is made of the words, the proved call is called, and the scan behind it is left.
ghost use Rattle.c_trace.specs.Exported.{OpenExported, NextExported};
ghost use Rattle.c_trace.specs.Written.{LineLeft};
ghost use Rattle.c_trace.specs.Private.{Written};

use super::words;
use trace::scan::Scan;
use trace_lines::line::{LINE_SIZE, TraceLine};

fn write(line: &mut [u8; LINE_SIZE], written: TraceLine) -> u32
    requires { Written written }
    ensures { LineLeft written result line.new }
{
    let bytes = written.bytes;
    *line = bytes;
    written.length as u32
}

#[unsafe(no_mangle)]
pub extern "C" fn uglezmir_trace_open(
    place: &mut [u64; 3],
    longs: &mut [u64; 8],
    shorts: &mut [u32; 4],
    input: &[u8],
)
    ensures { OpenExported input.now place.new longs.new shorts.new }
{
    words::leave(place, longs, shorts, Scan::open(input));
}

// The line is left in `line`, zeros behind it; its length is handed out, 0 where the scan is done.
#[unsafe(no_mangle)]
pub extern "C" fn uglezmir_trace_next(
    place: &mut [u64; 3],
    longs: &mut [u64; 8],
    shorts: &mut [u32; 4],
    input: &[u8],
    table: &mut [u8],
    line: &mut [u8; LINE_SIZE],
) -> u32
    ensures { NextExported place.old longs.old shorts.old input.now table.old result place.new longs.new shorts.new table.new line.new }
{
    let before = words::scan_of(place, longs, shorts);
    match before.next(input, table) {
        Ok(handed) => {
            words::leave(place, longs, shorts, handed.scan);
            write(line, handed.line)
        }
        Err(behind) => {
            words::leave(place, longs, shorts, behind);
            *line = [0; LINE_SIZE];
            0
        }
    }
}
