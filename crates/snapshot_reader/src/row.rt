// The row that stands at a place of a snapshot, decoded.
ghost use Rattle.std.specs.Prelude.{◌≡◌, ◌+◌, ◌≤◌, length};
ghost use Rattle.lent_bytes.specs.LentBytes.{part};
ghost use Rattle.peer_rows.specs.Rows.{key_width, row_width};
ghost use Rattle.snapshot.specs.Form.{first};
ghost use Rattle.snapshot.specs.Snapshot.{layout_right};
ghost use Rattle.snapshot_reader.specs.Reader.{given_at, stands, step_at};

use peer_rows::row::{KEY_WIDTH, ROW_WIDTH};
use peer_state::entry::PeerMessagePolicyEntry;
use pubkey::Pubkey;
use refusal::Refusal;

// A peer's row: its key, and the eleven numbers behind it.
#[derive(Clone, Copy)]
pub struct SnapshotRow {
    pub key: Pubkey,
    pub entry: PeerMessagePolicyEntry,
}

// A step of the walk that gives a row: the row, and the next row's place. `None` in its place says that all rows were given.
#[derive(Clone, Copy)]
pub struct RowStep {
    pub row: SnapshotRow,
    pub at: usize,
}

// Where the first row stands.
pub const FIRST_ROW: usize = 120;

const ROWS_KIND: u16 = 3;

// Whether the snapshot can be walked: its layout is right. Where it can't, asking for a kind is refused with 6, and so is each step.
pub fn opens(snapshot: &[u8]) -> bool
    ensures { result ≡ layout_right first snapshot.now }
{
    snapshot::part::place_of_kind(snapshot, ROWS_KIND).is_ok()
}

// Whether the place is that of a row, or the end of the rows, in a snapshot that can be walked.
fn place_stands(snapshot: &[u8], at: usize) -> bool
    ensures { result ≡ stands snapshot.now at }
{
    if !opens(snapshot) || at < FIRST_ROW || snapshot.len() < at {
        return false;
    }
    (at - FIRST_ROW) % ROW_WIDTH == 0
}

// The key that stands at the place.
fn key_at(snapshot: &[u8], at: usize) -> Pubkey
    requires { at + key_width ≤ length snapshot.now }
    ensures { result.bytes ≡ part snapshot.now at key_width }
{
    let mut bytes = [0; KEY_WIDTH];
    lent_bytes::run::put_slice(&mut bytes, 0, &snapshot[at..at + KEY_WIDTH]);
    Pubkey { bytes }
}

// The row that stands at the place.
fn given_at(snapshot: &[u8], at: usize) -> SnapshotRow
    requires { at + row_width ≤ length snapshot.now }
    ensures { result ≡ given_at snapshot.now at }
{
    SnapshotRow {
        key: key_at(snapshot, at),
        entry: peer_rows::row::entry_at(&snapshot[at..], 0),
    }
}

// The step at the place: the row there and the place behind it, or that all rows were given. Refused with 6 where the snapshot's layout is
// wrong or no row begins at the place.
pub fn row_at(snapshot: &[u8], at: usize) -> Result<Option<RowStep>, Refusal>
    ensures { result ≡ step_at snapshot.now at }
{
    if !place_stands(snapshot, at) {
        return Err(Refusal::WrongLayout);
    }
    if at == snapshot.len() {
        return Ok(None);
    }
    Ok(Some(RowStep {
        row: given_at(snapshot, at),
        at: at + ROW_WIDTH,
    }))
}
