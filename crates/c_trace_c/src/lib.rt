// The C functions of crate `c_trace` as a static library: an input of the trace program, line by line. Each calls that crate's function
// of the same name, by the same contract. `scripts/archive` writes the library to target/native/libc_trace.a, by which name
// include/uglezmir.h has it.
#![tactic(auto)]

ghost use Rattle.c_trace.specs.Exported.{NextExported, OpenExported};

use c_trace::scan;
use trace_lines::line::LINE_SIZE;

#[unsafe(no_mangle)]
pub extern "C" fn uglezmir_trace_open(
    place: &mut [u64; 3],
    longs: &mut [u64; 8],
    shorts: &mut [u32; 4],
    input: &[u8],
)
    ensures { OpenExported input.now place.new longs.new shorts.new }
{
    scan::uglezmir_trace_open(place, longs, shorts, input);
}

#[unsafe(no_mangle)]
pub extern "C" fn uglezmir_trace_next(
    place: &mut [u64; 3],
    longs: &mut [u64; 8],
    shorts: &mut [u32; 4],
    input: &[u8],
    table: &mut [u8],
    line: &mut [u8; LINE_SIZE],
) -> u32
    ensures { NextExported place.old longs.old shorts.old input.now table.old result place.new longs.new shorts.new table.new line.new }
{
    scan::uglezmir_trace_next(place, longs, shorts, input, table, line)
}
