// A snapshot asked for the part of a kind: 1 for the settings, 2 for the load, 3 for the rows. The layout alone is judged, so the parts
// of an unsound policy are handed out.
ghost use Rattle.std.specs.Prelude.{◌≡◌};
ghost use Rattle.snapshot_layout.specs.Layout.{place_of};
ghost use Rattle.snapshot.specs.Form.{first, rows_in, form_slots};
ghost use Rattle.snapshot.specs.Snapshot.{placed, part_place, part_of};

use super::{form, judge};
use refusal::Refusal;

// Where the part of the kind stands, if the layout is right.
fn kind_place(snapshot: &[u8], kind: u16) -> Result<(usize, usize), Refusal>
    ensures { result ≡ placed (place_of kind (form_slots first (rows_in first snapshot.now))) }
{
    let kinds = form::kinds();
    let lengths = form::lengths(judge::rows_in(snapshot));
    snapshot_layout::place::place_of(&kinds, &lengths, kind).ok_or(Refusal::WrongLayout)
}

// Where the part of the kind stands. Refused with 6 where the layout is wrong or has no such kind; an empty part is no refusal.
pub fn place_of_kind(snapshot: &[u8], kind: u16) -> Result<(usize, usize), Refusal>
    ensures { result ≡ part_place first snapshot.now kind }
{
    match judge::settings_in(snapshot) {
        None => Err(Refusal::WrongLayout),
        Some(_) => kind_place(snapshot, kind),
    }
}

// The part of the kind, as it stands in the caller's slice; empty where `place_of_kind` refuses.
pub fn part(snapshot: &[u8], kind: u16) -> &[u8]
    ensures { result.now ≡ part_of snapshot.now (part_place first snapshot.now kind) }
{
    match place_of_kind(snapshot, kind) {
        Ok((from, end)) => &snapshot[from..end],
        Err(_) => &snapshot[..0],
    }
}
