// admit-trace: reads a trace from standard input, all of it, and then writes the policy's answers to standard output.
// Crate `trace` has the answers, `trace_output` writes them, `standard` reads.
#![tactic(auto)]

ghost use Rattle.std.specs.Prelude.{◌≡◌, ◌<◌, length};
ghost use Rattle.trace.specs.Scan.{longest_input};

use trace_output::write_answers;

fn main(rt: HostRuntime) {
    let mut buffer = [0u8; 65537];
    let mut table = [0u8; 30976];
    answer_input(&rt, &mut buffer, &mut table);
}

// The buffer holds more than the longest input, so that a longer one is seen to be too long and not cut; the table holds the rows of
// 256 peers. Of an input that could not be read to its end nothing is answered.
fn answer_input(rt: &HostRuntime, buffer: &mut [u8], table: &mut [u8])
    requires longest_input_in_bounds { longest_input < length buffer.old }
    requires table_len { length table.old ≡ 30976 }
{
    if let Some(count) = standard::read(rt, buffer) {
        write_answers(rt, &buffer[..count], table);
    }
}
