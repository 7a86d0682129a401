// The first form of a snapshot as data: its kinds, their lengths, and the places that follow from them.
ghost use Rattle.std.specs.Prelude.{◌≡◌, ◌*◌, ◌≤◌};
ghost use Rattle.peer_rows.specs.Rows.{row_width};
ghost use Rattle.snapshot.specs.Form.{first, lengths_of};

use peer_rows::row::ROW_WIDTH;
use snapshot_layout::contents::{COUNT_SIZE, SLOT_SIZE};
use snapshot_settings::load::LOAD_SIZE;
use snapshot_settings::settings::SETTINGS_SIZE;

// How many parts there are.
pub(crate) const PARTS: usize = 3;

// Where the parts stand.
pub(crate) const SETTINGS_PLACE: usize = COUNT_SIZE + SLOT_SIZE * PARTS;

pub(crate) const LOAD_PLACE: usize = SETTINGS_PLACE + SETTINGS_SIZE;

pub(crate) const ROWS_PLACE: usize = LOAD_PLACE + LOAD_SIZE;

// The kinds in their order: settings, load, rows.
pub(crate) fn kinds() -> [u16; PARTS]
    ensures { result ≡ first.kinds }
{
    [1, 2, 3]
}

// The lengths of the parts, with so many rows.
pub(crate) fn lengths(rows: usize) -> [usize; PARTS]
    requires { row_width * rows ≤ 18446744073709551615 }
    ensures { result ≡ lengths_of first rows }
{
    [SETTINGS_SIZE, LOAD_SIZE, ROW_WIDTH * rows]
}
