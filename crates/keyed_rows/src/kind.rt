// The rows of one kind: how wide they are, how an entry stands behind its key, and the rule that each row keeps. What the tables' crates
// do with their rows is here once, for any kind.
ghost use Rattle.std.specs.Prelude.{◌≡◌, ◌+◌, ◌*◌, ◌^◌, ◌<◌, ◌≤◌, Bool, ℕ, length};
ghost use Rattle.lent_bytes.specs.LentBytes.{part};
ghost use Rattle.table.specs.Table.{Row, row_under, remove_at, retain};
ghost use Rattle.table.specs.Table.{store as stored};
ghost use Rattle.table.specs.Private.{insert_at, seek};
ghost use Rattle.table.specs.Memory.{Layout, word_bytes, row_of, rows, Holds};
ghost use Rattle.table.specs.MemoryLaws.{Faithful};
ghost use Rattle.table_laws.specs.Private.{Counted, Gathered, over};

use crate::find::{in_order, place_from};
use lent_bytes::number::front_at;
use table::seek::Seek;

// A kind of rows, whose entries are N numbers of eight bytes each.
pub trait RowKind<const N: usize>: Copy {
    type Entry: Copy;

    ghost WIDTH: { ℕ };

    ghost KEY_WIDTH: { ℕ };

    // How a row stands in bytes.
    ghost layout: { Layout Self.Entry };

    // Which entries do: all that a program can hold.
    ghost Fits: { Self.Entry → Type 0 };

    // Whether a row keeps its rule.
    ghost sound: { Self → Row Self.Entry → Bool };

    // The bytes of a row, and those of the key that it begins with.
    const WIDTH: usize;

    const KEY_WIDTH: usize;

    // An entry's numbers, in the order of the row.
    fn words(entry: Self::Entry) -> [u64; N]
        ensures encoded { word_bytes result ≡ layout.encode entry }
        ensures fits { Fits entry };

    // The entry of the row at the place.
    fn entry_at(table: &[u8], at: usize) -> Self::Entry
        requires { at + WIDTH ≤ length table.now }
        ensures { result ≡ (row_of layout (part table.now at WIDTH)).entry };

    // Whether the row at the place keeps its rule.
    fn is_sound_at(self, table: &[u8], at: usize) -> bool
        requires { at + WIDTH ≤ length table.now }
        ensures { result ≡ sound self (row_of layout (part table.now at WIDTH)) };

    ghost width_is: { WIDTH ≡ layout.width };

    ghost key_width_is: { KEY_WIDTH ≡ layout.key_width };

    ghost key_bound: { 8 ≤ KEY_WIDTH };

    ghost words_bound: { N < 2 ^ 32 };

    ghost faithful: { Faithful layout Fits };
}

// Takes the row at the index out.
pub fn remove_at<K: RowKind<N>, const N: usize>(table: &mut [u8], count: usize, index: usize)
    requires index_lt_count { index < count }
    requires count_in_bounds { K.WIDTH * count ≤ length table.old }
    ensures { Holds K.layout table.old table.new count (remove_at index (rows K.layout table.old count)) }
{
    table::rows::remove_row(table, K::WIDTH, count, index);
}

// Writes an entry over that of the row at the index, which keeps its key.
pub fn overwrite_at<K: RowKind<N>, const N: usize>(
    table: &mut [u8],
    count: usize,
    index: usize,
    entry: K::Entry,
)
    requires index_lt_count { index < count }
    requires count_in_bounds { K.WIDTH * count ≤ length table.old }
    ensures { Holds K.layout table.old table.new count (over K.layout table.old count index entry) }
{
    table::rows::put_words(table, K::WIDTH * index + K::KEY_WIDTH, &K::words(entry));
}

// Puts a row in before the row at the index.
pub fn insert_at<K: RowKind<N>, const N: usize>(
    table: &mut [u8],
    count: usize,
    index: usize,
    key: &[u8],
    entry: K::Entry,
)
    requires index_le_count { index ≤ count }
    requires count_in_bounds { K.WIDTH * (count + 1) ≤ length table.old }
    requires key_len { length key.now ≡ K.KEY_WIDTH }
    ensures { Holds K.layout table.old table.new count (insert_at index (row_under key.now entry) (rows K.layout table.old count)) }
{
    table::rows::insert_row(table, K::WIDTH, count, index, key, &K::words(entry));
}

// Stores an entry under its key: over the row of that key, or in a row put in where the key belongs. Answers how many rows there are
// then.
pub fn store<K: RowKind<N>, const N: usize>(
    table: &mut [u8],
    count: usize,
    key: &[u8],
    entry: K::Entry,
) -> usize
    requires count_in_bounds { K.WIDTH * (count + 1) ≤ length table.old }
    requires key_len { length key.now ≡ K.KEY_WIDTH }
    ensures { Counted K.layout table.old table.new count result (stored key.now entry (rows K.layout table.old count)) }
{
    crate::change::store(table, K::WIDTH, count, key, &K::words(entry))
}

// Whether the rows are sound, and where the key stands or would stand: one walk, which judges each row and whether it comes after the one
// before it, and counts those whose fronts are below the key's. Of ascending rows they are the first: the key is then compared in full from
// behind them. One loop, since the rows are judged on every call.
pub fn sought<K: RowKind<N>, const N: usize>(
    kind: K,
    table: &[u8],
    count: usize,
    key: &[u8],
) -> Seek
    requires count_in_bounds { K.WIDTH * count ≤ length table.now }
    requires key_len { length key.now ≡ K.KEY_WIDTH }
    ensures { result ≡ seek (K.sound kind) key.now (rows K.layout table.now count) }
{
    let key_front = front_at(key, 0);
    let mut last: u64 = 0;
    let mut place: usize = 0;
    for i in 0..count {
        let at = K::WIDTH * i;
        if !kind.is_sound_at(table, at) {
            return Seek::Unsound;
        }
        let own = front_at(table, at);
        if !in_order(table, K::WIDTH, K::KEY_WIDTH, i, last, own) {
            return Seek::Unsound;
        }
        if own < key_front {
            place += 1;
        }
        last = own;
    }
    place_from(table, K::WIDTH, count, key, place)
}

// The rows whose entries pass, one after another at the front, and how many there are. What stands behind them is left.
pub fn gather<K: RowKind<N>, const N: usize, F: Fn(K::Entry) -> bool>(
    table: &mut [u8],
    count: usize,
    passes: F,
) -> usize
    requires passes_callable { F.IsAlwaysCallable passes }
    requires count_in_bounds { K.WIDTH * count ≤ length table.old }
    ensures le_count { result ≤ count }
    ensures gathered { (test : K.Entry → Bool) → ((e : K.Entry) (b : Bool) → F.post passes e b → b ≡ test e) → Gathered K.layout table.old table.new result (retain (λ r. test r.entry) (rows K.layout table.old count)) }
{
    let mut kept: usize = 0;
    for i in 0..count {
        if passes(K::entry_at(table, K::WIDTH * i)) {
            table::rows::keep_row(table, K::WIDTH, i, kept);
            kept += 1;
        }
    }
    kept
}

// Takes out the rows whose entries do not pass, and answers how many are left. The places freed become zeros.
pub fn retain<K: RowKind<N>, const N: usize, F: Fn(K::Entry) -> bool>(
    table: &mut [u8],
    count: usize,
    passes: F,
) -> usize
    requires passes_callable { F.IsAlwaysCallable passes }
    requires count_in_bounds { K.WIDTH * count ≤ length table.old }
    ensures { (test : K.Entry → Bool) → ((e : K.Entry) (b : Bool) → F.post passes e b → b ≡ test e) → Counted K.layout table.old table.new count result (retain (λ r. test r.entry) (rows K.layout table.old count)) }
{
    let kept = gather::<K, N, F>(table, count, passes);
    table::rows::zero_rows(table, K::WIDTH, kept, count - kept);
    kept
}
