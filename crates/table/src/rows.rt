// Rows of one width in a slice that the caller lends: a row put in, rows taken out, a row kept in a walk, and places zeroed.
//
// Each contract is one `put` of what stood in the slice; `MemoryLaws` says which rows the slice then holds.
ghost use Rattle.std.specs.Prelude.{◌≡◌, ◌++◌, ◌+◌, ◌-◌, ◌*◌, ◌<◌, ◌≤◌, length};
ghost use Rattle.lent_bytes.specs.LentBytes.{part, put, zeros};
ghost use Rattle.table.specs.Memory.{word_bytes};

// Writes the numbers one after another at the place, eight bytes each.
pub fn put_words(table: &mut [u8], at: usize, words: &[u64])
    requires { at + 8 * length words.now ≤ length table.old }
    ensures { table.new ≡ put table.old at (word_bytes words.now) }
{
    for (i, word) in words.iter().enumerate() {
        lent_bytes::number::put_u64(table, at + 8 * i, *word);
    }
}

// Puts a row in before the row at the index: the rows from there on move up by one place.
pub fn insert_row(
    table: &mut [u8],
    width: usize,
    count: usize,
    index: usize,
    key: &[u8],
    words: &[u64],
)
    requires index_le_count { index ≤ count }
    requires count_in_bounds { width * (count + 1) ≤ length table.old }
    requires words_len { length key.now + 8 * length words.now ≡ width }
    ensures { table.new ≡ put table.old (width * index) ((key.now ++ word_bytes words.now) ++ part table.old (width * index) (width * (count - index))) }
{
    let at = width * index;
    let behind = width * (count - index);
    lent_bytes::run::move_up(table, at, behind, width);
    lent_bytes::run::put_slice(table, at, key);
    put_words(table, at + key.len(), words);
}

// Takes the `run` neighbouring rows from the index on out: the rows behind them move down, and the last places become zeros.
pub fn remove_rows(table: &mut [u8], width: usize, count: usize, index: usize, run: usize)
    requires run_bound { index + run ≤ count }
    requires count_in_bounds { width * count ≤ length table.old }
    ensures { table.new ≡ put table.old (width * index) (part table.old (width * (index + run)) (width * (count - (index + run))) ++ zeros (width * run)) }
{
    let next = width * (index + run);
    let behind = width * (count - (index + run));
    let freed = width * run;
    lent_bytes::run::move_down(table, next, behind, freed);
    lent_bytes::run::fill_zeros(table, width * index + behind, freed);
}

// Takes the row at the index out: the rows behind it move down by one place, and the last place becomes zeros.
pub fn remove_row(table: &mut [u8], width: usize, count: usize, index: usize)
    requires index_lt_count { index < count }
    requires count_in_bounds { width * count ≤ length table.old }
    ensures { table.new ≡ put table.old (width * index) (part table.old (width * (index + 1)) (width * (count - (index + 1))) ++ zeros width) }
{
    remove_rows(table, width, count, index, 1);
}

// Moves the row at the place `from` down to the place `to`: a step of a walk that keeps some rows. A row that stays where it is
// is not copied.
pub fn keep_row(table: &mut [u8], width: usize, from: usize, to: usize)
    requires to_le_from { to ≤ from }
    requires from_in_bounds { width * (from + 1) ≤ length table.old }
    ensures { table.new ≡ put table.old (width * to) (part table.old (width * from) width) }
{
    if to < from {
        lent_bytes::run::move_down(table, width * from, width, width * (from - to));
    }
}

// Writes zeros into the `count` places from the place `from` on.
pub fn zero_rows(table: &mut [u8], width: usize, from: usize, count: usize)
    requires { width * (from + count) ≤ length table.old }
    ensures { table.new ≡ put table.old (width * from) (zeros (width * count)) }
{
    lent_bytes::run::fill_zeros(table, width * from, width * count);
}
