// The first peer to go: of those without a ban the one whose last use is the oldest, or of the banned ones the one whose ban ends
// first.
ghost use Rattle.std.specs.Prelude.{◌≡◌, ◌+◌, ◌*◌, ◌≤◌, length};
ghost use Rattle.table.specs.Table.{nothing, better, minimum_from};
ghost use Rattle.table.specs.Memory.{rows};
ghost use Rattle.peer_rows.specs.Rows.{row_width, peer_layout, row_from};
ghost use Rattle.peer_table.specs.Private.{best_of, measure_of, measure_by};

use lent_bytes::number::get_u64;
use peer_rows::row::{BAN_PLACE, LAST_USED_PLACE, ROW_WIDTH};

// The measure of the row at the place: of a banned peer the ban's end, of another its last use, and only the kind that is asked
// for takes part.
fn measure_at(table: &[u8], at: usize, banned: bool) -> Option<u64>
    requires { at + row_width ≤ length table.now }
    ensures { measure_of result ≡ measure_by banned (row_from table.now at) }
{
    let ban = at + BAN_PLACE;
    let mark = get_u64(table, ban);
    if banned {
        if mark != 1 {
            return None;
        }
        return Some(get_u64(table, ban + 8));
    }
    if mark == 1 {
        return None;
    }
    Some(get_u64(table, at + LAST_USED_PLACE))
}

// The better of what was found and the row at the index; the earlier row, that of the smaller key, where they are equal.
fn better_of(
    found: Option<(usize, u64)>,
    index: usize,
    measure: Option<u64>,
) -> Option<(usize, u64)>
    ensures { best_of result ≡ better (best_of found) index (measure_of measure) }
{
    let Some(time) = measure else {
        return found;
    };
    let Some((earlier, least)) = found else {
        return Some((index, time));
    };
    if time < least {
        return Some((index, time));
    }
    Some((earlier, least))
}

// The first of the banned peers, or of the others.
pub fn find_first(table: &[u8], count: usize, banned: bool) -> Option<(usize, u64)>
    requires { row_width * count ≤ length table.now }
    ensures { best_of result ≡ minimum_from (measure_by banned) nothing 0 (rows peer_layout table.now count) }
{
    let mut found = None;
    for i in 0..count {
        found = better_of(found, i, measure_at(table, ROW_WIDTH * i, banned));
    }
    found
}
