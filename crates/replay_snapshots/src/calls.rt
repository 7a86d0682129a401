// The four calls of a record. Where a call may leave something, each word is the record's seed before it, and each short or byte is 9.
use c_snapshot::parts::{uglezmir_snapshot_place, uglezmir_snapshot_row};
use c_snapshot::policy::{uglezmir_snapshot_read, uglezmir_snapshot_write};
use replay::checksum::{add, add_bytes, add_word, fill};
use replay::line::Line;
use replay::record::{Record, low_half};

const ANY: u32 = 9;

const ANY_BYTE: u8 = 9;

// The snapshot is read and written again, what was read or the words as they are; then a place and a row are asked for. The checksum is of
// all that the calls left.
pub(crate) fn answered(r: Record, snapshot: &[u8], table: &mut [u8], output: &mut [u8]) -> Line {
    let seed = r.sixth;
    let more = fill(table, seed);
    fill(output, more);
    let mut longs = [seed; 8];
    let mut shorts = [ANY; 4];
    let read = uglezmir_snapshot_read(&mut longs, &mut shorts, snapshot, table);
    let mut length = seed;
    let written = uglezmir_snapshot_write(&longs, &shorts, table, output, &mut length);
    let mut place = [seed; 2];
    let placed = uglezmir_snapshot_place(snapshot, low_half(r.fourth), &mut place);
    let mut key = [ANY_BYTE; 33];
    let mut numbers = [seed; 12];
    let found = uglezmir_snapshot_row(snapshot, r.fifth, &mut key, &mut numbers);
    let mut sum = add_words(0, &longs);
    for n in shorts {
        sum = add(sum, n);
    }
    sum = add_word(add_bytes(sum, table), length);
    sum = add_words(add_bytes(sum, output), &place);
    sum = add_words(add_bytes(sum, &key), &numbers);
    Line::empty()
        .decimal(read as u64)
        .then(written as u64)
        .then(placed as u64)
        .then(found as u64)
        .then(sum)
}

fn add_words(mut sum: u64, words: &[u64]) -> u64 {
    for n in words {
        sum = add_word(sum, *n);
    }
    sum
}
