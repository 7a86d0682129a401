// A snapshot asked for the part of a kind, and for the row at a place.
ghost use Rattle.std.specs.Prelude.{◌≡◌};
ghost use Rattle.snapshot.specs.Form.{first};
ghost use Rattle.snapshot.specs.Snapshot.{part_place};
ghost use Rattle.c_snapshot.specs.Exported.{step_numbers, StepLeft, PlaceExported, RowExported};

use c_words::answers;
use refusal::Refusal;
use snapshot_reader::row::{RowStep, row_at};

// The largest number that a kind's 16 bits hold.
const LARGEST_KIND: u32 = 0xffff;

// Where the part of the kind stands. No snapshot has a kind above 16 bits.
fn place_of(snapshot: &[u8], kind: u32) -> Result<(usize, usize), Refusal>
    ensures { result ≡ part_place first snapshot.now kind }
{
    if kind > LARGEST_KIND {
        return Err(Refusal::WrongLayout);
    }
    snapshot::part::place_of_kind(snapshot, kind as u16)
}

// 261, and where the part begins and ends is left in `place`; or 6.
#[unsafe(no_mangle)]
pub extern "C" fn uglezmir_snapshot_place(snapshot: &[u8], kind: u32, place: &mut [u64; 2]) -> u32
    ensures { PlaceExported snapshot.now kind place.old result place.new }
{
    match place_of(snapshot, kind) {
        Ok((from, end)) => {
            *place = [from as u64, end as u64];
            answers::DONE
        }
        Err(refusal) => refusal.number(),
    }
}

// A row's eleven numbers, and the next row's place behind them.
fn numbers_of(step: RowStep) -> [u64; 12]
    ensures { result ≡ step_numbers step }
{
    let words = peer_rows::row::words_of(step.row.entry);
    [
        words[0],
        words[1],
        words[2],
        words[3],
        words[4],
        words[5],
        words[6],
        words[7],
        words[8],
        words[9],
        words[10],
        step.at as u64,
    ]
}

// Leaves the row of a step that gives one; the number says which step it is.
fn leave(key: &mut [u8; 33], numbers: &mut [u64; 12], step: Result<Option<RowStep>, Refusal>) -> u32
    ensures { StepLeft step key.old numbers.old result key.new numbers.new }
{
    match step {
        Ok(Some(given)) => {
            // Kept: a field that is an array is stored through a variable, since the check does not cover it otherwise.
            let bytes = given.row.key.bytes;
            *key = bytes;
            *numbers = numbers_of(given);
            answers::DONE
        }
        Ok(None) => answers::NO,
        Err(refusal) => refusal.number(),
    }
}

// 261, and the row at the place is left: its key in `key`, its eleven numbers and then the next row's place in `numbers`; 259 where all
// rows were given; or 6. The first row's place is where part 3 begins.
#[unsafe(no_mangle)]
pub extern "C" fn uglezmir_snapshot_row(
    snapshot: &[u8],
    at: u64,
    key: &mut [u8; 33],
    numbers: &mut [u64; 12],
) -> u32
    ensures { RowExported snapshot.now at key.old numbers.old result key.new numbers.new }
{
    leave(key, numbers, row_at(snapshot, at as usize))
}
