// Rows from a memory's beginning, alike but for their keys: the key's first two bytes are the row's place, the high one first, and the
// others are 0. Behind a key of 33 bytes stand four numbers, behind one of 70 three.
ghost use Rattle.std.specs.Prelude.{◌+◌, ◌≤◌, ◌<◌, length};

use replay::memory::put_word;
use replay::record::Record;

// The record has the count of rows, the key's bytes and the numbers. Answers whether the memory has room for the rows.
pub(crate) fn put_rows(memory: &mut [u8], r: Record) -> bool {
    match r.third {
        33 => put_all(memory, 33, 65, r),
        70 => put_all(memory, 70, 94, r),
        _ => false,
    }
}

fn put_all(memory: &mut [u8], key: usize, width: usize, r: Record) -> bool
    requires { (2 ≤ key) × (key + 24 ≤ width) }
{
    let room = (memory.len() / width) as u64;
    for (place, row) in (0..r.second).zip(memory.chunks_exact_mut(width)) {
        put_row(row, key, place, r);
    }
    r.second <= room
}

// The fourth number is written only where the row has room for it.
fn put_row(row: &mut [u8], key: usize, place: u64, r: Record)
    requires { (2 ≤ key) × (key + 24 ≤ length row.old) }
{
    row[..key].fill(0);
    row[..2].copy_from_slice(&place.to_be_bytes()[6..]);
    put_word(row, key, r.fourth);
    put_word(row, key + 8, r.fifth);
    put_word(row, key + 16, r.sixth);
    put_word(row, key + 24, r.seventh);
}
