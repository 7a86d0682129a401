// Where the part of a kind stands in a snapshot.
ghost use Rattle.std.specs.Prelude.{◌≡◌, ◌+◌, ◌≤◌, length};
ghost use Rattle.snapshot_layout.specs.Layout.{slots, snapshot_size, place_of};

use super::contents::contents_size;

// Where the first part of the kind stands in a snapshot with parts of these kinds and lengths.
pub fn place_of(kinds: &[u16], lengths: &[usize], kind: u16) -> Option<(usize, usize)>
    requires lengths_len { length lengths.now ≡ length kinds.now }
    requires lengths_bound { snapshot_size (slots kinds.now lengths.now) ≤ 18446744073709551615 }
    ensures { result ≡ place_of kind (slots kinds.now lengths.now) }
{
    let mut from: usize = contents_size(kinds.len());
    for i in 0..kinds.len() {
        let end = from + lengths[i];
        if kinds[i] == kind {
            return Some((from, end));
        }
        from = end;
    }
    None
}
