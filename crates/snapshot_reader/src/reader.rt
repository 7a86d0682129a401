// A reader that carries the lent snapshot and its place. Its fields are public, so each step judges layout and place anew: a reader that a
// caller made up is answered 6. Thin over `row_at`, which does the work.
ghost use Rattle.std.specs.Prelude.{◌≡◌};
ghost use Rattle.snapshot_reader.specs.Reader.{step_at, Advanced};

use super::row::{FIRST_ROW, RowStep, row_at};
use refusal::Refusal;

#[derive(Clone, Copy)]
pub struct SnapshotReader<'a> {
    pub snapshot: &'a [u8],
    pub at: usize,
}

impl<'a> SnapshotReader<'a> {
    // A reader at the first row's place, whatever the bytes: `row::opens` says whether they can be walked, and so does the first step.
    pub fn opened(snapshot: &'a [u8]) -> SnapshotReader<'a>
        ensures { (result.snapshot ≡ snapshot.entry) × (result.at ≡ 120) }
    {
        SnapshotReader {
            snapshot,
            at: FIRST_ROW,
        }
    }

    // The step at the reader's place.
    pub fn next(self) -> Result<Option<RowStep>, Refusal>
        ensures { result ≡ step_at self.entry.snapshot.now self.entry.at }
    {
        row_at(self.snapshot, self.at)
    }

    // The reader at another place: that of the last step.
    pub fn moved(self, at: usize) -> SnapshotReader<'a>
        ensures { (result.snapshot ≡ self.entry.snapshot) × (result.at ≡ at) }
    {
        SnapshotReader { at, ..self }
    }

    // Kept: no Iterator, since the end and a refusal are said again for ever at the same place, and theorem `advance_done` speaks of that.
    //
    // Hands out the step at the reader's place, and moves the reader to the place that the step gives: called again and again on what
    // `opened` made, it gives each row once, in their order, and then says for ever that all were given.
    pub fn advance(&mut self) -> Result<Option<RowStep>, Refusal>
        ensures { Advanced self.old result self.new }
    {
        let step = row_at(self.snapshot, self.at)?;
        if let Some(given) = step {
            self.at = given.at;
        }
        Ok(step)
    }
}
