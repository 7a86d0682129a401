// A policy that crosses as words, written as a snapshot and read back.
ghost use Rattle.c_snapshot.specs.Exported.{WriteExported, ReadExported};

use c_words::{answers, words};

// 261, and how many bytes of the output became the snapshot is left in `length`; 3 or 1.
#[unsafe(no_mangle)]
pub extern "C" fn uglezmir_snapshot_write(
    longs: &[u64; 8],
    shorts: &[u32; 4],
    table: &[u8],
    output: &mut [u8],
    length: &mut u64,
) -> u32
    ensures { WriteExported longs.now shorts.now table.now output.old length.old result output.new length.new }
{
    match snapshot::policy::write(words::policy_of(longs, shorts), table, output) {
        Ok(size) => {
            *length = size as u64;
            answers::DONE
        }
        Err(refusal) => refusal.number(),
    }
}

// 261, and the policy that the snapshot describes is left in the words; 6, 2, 3 or 1. What the words held before is not read.
#[unsafe(no_mangle)]
pub extern "C" fn uglezmir_snapshot_read(
    longs: &mut [u64; 8],
    shorts: &mut [u32; 4],
    snapshot: &[u8],
    table: &mut [u8],
) -> u32
    ensures { ReadExported longs.old shorts.old snapshot.now table.old result longs.new shorts.new table.new }
{
    let answer = snapshot::policy::read(snapshot, table);
    words::leave(longs, shorts, answers::numbered_changed(answer))
}
