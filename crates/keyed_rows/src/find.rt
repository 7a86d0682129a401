// A key found among rows. Contracts speak of the raw rows whose keys are as long as the key sought; `RawLaws` carries them to any
// layout of those widths. So a shorter key, a prefix, is sought among the rows' prefixes of its length: the place is that of the
// first row whose prefix is not below it.
ghost use Rattle.std.specs.Prelude.{◌≡◌, ◌+◌, ◌-◌, ◌*◌, ◌<◌, ◌≤◌, length, drop};
ghost use Rattle.lent_bytes.specs.LentBytes.{part};
ghost use Rattle.lent_bytes.specs.Private.{front};
ghost use Rattle.pubkey.specs.Order.{compare_bytes};
ghost use Rattle.table.specs.Private.{place_from, seek};
ghost use Rattle.table.specs.Memory.{rows};
ghost use Rattle.table_laws.specs.Raw.{raw_layout, any_row};
ghost use Rattle.table_laws.specs.Walk.{rises};

use lent_bytes::number::front_at;
use std::cmp::Ordering;
use table::seek::Seek;

// Which comes first, the key or the bytes of its length at the place. Both are compared where they stand.
fn compare_key(key: &[u8], table: &[u8], at: usize) -> Ordering
    requires { at + length key.now ≤ length table.now }
    ensures { result ≡ compare_bytes key.now (part table.now at (length key.now)) }
{
    pubkey::order::compare_bytes(key, &table[at..at + key.len()])
}

// Where the key stands or would stand among the rows from the index on, the first that is not below it.
pub fn place_from(table: &[u8], width: usize, count: usize, key: &[u8], from: usize) -> Seek
    requires key_len_bound { length key.now ≤ width }
    requires count_in_bounds { width * count ≤ length table.now }
    ensures { result ≡ place_from from key.now (drop from (rows (raw_layout (length key.now) width) table.now count)) }
{
    for i in from..count {
        match compare_key(key, table, width * i) {
            Ordering::Less => return Seek::Gap(i),
            Ordering::Equal => return Seek::At(i),
            Ordering::Greater => {}
        }
    }
    Seek::Gap(count.max(from))
}

// Where the key stands or would stand, without judging the rows: a key comes after the rows whose fronts are below its own, so these
// are passed by eight bytes each, up to the first that is not. From there on it is compared in full. Keys have eight bytes at least.
pub fn place_of(table: &[u8], width: usize, count: usize, key: &[u8]) -> Seek
    requires key_len_in_bounds { (8 ≤ length key.now) × (length key.now ≤ width) }
    requires count_in_bounds { width * count ≤ length table.now }
    ensures { result ≡ place_from 0 key.now (rows (raw_layout (length key.now) width) table.now count) }
{
    let key_front = front_at(key, 0);
    // Kept: a `for` with `break` would need a second variable for the index where it stopped.
    let mut passed: usize = 0;
    while passed < count && front_at(table, width * passed) < key_front {
        passed += 1;
    }
    place_from(table, width, count, key, passed)
}

// Whether the row at the index comes after the one before it, if there is one. `own` and `last` are the fronts of both: where they
// differ, and they nearly always do, one comparison decides. Keys have eight bytes at least.
pub fn in_order(
    table: &[u8],
    width: usize,
    key_width: usize,
    index: usize,
    last: u64,
    own: u64,
) -> bool
    requires key_width_in_bounds { (8 ≤ key_width) × (key_width ≤ width) }
    requires width_in_bounds { width * index + width ≤ length table.now }
    requires own_value { own ≡ front 8 table.now (width * index) }
    requires last_value { 0 < index → last ≡ front 8 table.now (width * (index - 1)) }
    ensures { result ≡ rises width key_width table.now index }
{
    if last < own || index == 0 {
        return true;
    }
    table::keys::compare_places(table, width * (index - 1), width * index, key_width).is_lt()
}

// Whether the rows ascend, and where the key stands or would stand: one walk, which judges each row against the one before it and
// counts those whose fronts are below the key's. Of ascending rows they are the first: the key is compared in full from behind them.
// Keys have eight bytes at least. `kind::sought` is this walk for rows of a kind, whose own rule it judges too.
pub fn find(table: &[u8], width: usize, count: usize, key: &[u8]) -> Seek
    requires key_len_in_bounds { (8 ≤ length key.now) × (length key.now ≤ width) }
    requires count_in_bounds { width * count ≤ length table.now }
    ensures { result ≡ seek any_row key.now (rows (raw_layout (length key.now) width) table.now count) }
{
    let key_front = front_at(key, 0);
    let mut last: u64 = 0;
    let mut place: usize = 0;
    for i in 0..count {
        let own = front_at(table, width * i);
        if !in_order(table, width, key.len(), i, last, own) {
            return Seek::Unsound;
        }
        if own < key_front {
            place += 1;
        }
        last = own;
    }
    place_from(table, width, count, key, place)
}
