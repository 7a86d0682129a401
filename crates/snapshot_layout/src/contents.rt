// A snapshot's contents, written and compared. Places come from the lists of kinds and lengths.
// Kept: these are two slices and not one of pairs, since the contracts of `put_contents`, `laid_out` and `place_of` speak of each.
ghost use Rattle.std.specs.Prelude.{◌≡◌, ◌+◌, ◌*◌, ◌≤◌, length};
ghost use Rattle.lent_bytes.specs.LentBytes.{put};
ghost use Rattle.snapshot_layout.specs.Layout.{count_size, slot_size, contents_size, slots, snapshot_size};
ghost use Rattle.snapshot_layout.specs.Layout.{slot_bytes, contents, slot_says, says_from, laid_out};

use lent_bytes::number::{get_u16, get_u32, put_u16, put_u32};

// Sizes in bytes: of the count of the parts, of a kind, of a place or a length, and of what the contents tell of one part.
pub const COUNT_SIZE: usize = 2;

pub const KIND_SIZE: usize = 2;

pub const NUMBER_SIZE: usize = 4;

pub const SLOT_SIZE: usize = 10;

// The size of the contents of so many parts: where the first body begins.
pub fn contents_size(count: usize) -> usize
    requires { contents_size count ≤ 18446744073709551615 }
    ensures { result ≡ contents_size count }
{
    COUNT_SIZE + SLOT_SIZE * count
}

// Writes what the contents tell of one part.
fn put_slot(output: &mut [u8], at: usize, kind: u16, from: u32, size: u32)
    requires { at + slot_size ≤ length output.old }
    ensures { output.new ≡ put output.old at (slot_bytes from (record { kind = kind; size = size })) }
{
    put_u16(output, at, kind);
    put_u32(output, at + KIND_SIZE, from);
    put_u32(output, at + KIND_SIZE + NUMBER_SIZE, size);
}

// Writes the contents of a snapshot with parts of these kinds and lengths at the beginning of the output.
pub fn put_contents(output: &mut [u8], kinds: &[u16], lengths: &[usize])
    requires lengths_len { length lengths.now ≡ length kinds.now }
    requires kinds_len_bound { length kinds.now ≤ 65535 }
    requires lengths_bound { snapshot_size (slots kinds.now lengths.now) ≤ 4294967295 }
    requires kinds_in_bounds { contents_size (length kinds.now) ≤ length output.old }
    ensures { output.new ≡ put output.old 0 (contents (slots kinds.now lengths.now)) }
{
    put_u16(output, 0, kinds.len() as u16);
    let mut from: usize = contents_size(kinds.len());
    for i in 0..kinds.len() {
        let size = lengths[i];
        put_slot(
            output,
            COUNT_SIZE + SLOT_SIZE * i,
            kinds[i],
            from as u32,
            size as u32,
        );
        from += size;
    }
}

// Whether the bytes at the place tell this of a part.
fn slot_says(snapshot: &[u8], at: usize, kind: u16, from: usize, size: usize) -> bool
    requires { at + slot_size ≤ length snapshot.now }
    ensures { result ≡ slot_says snapshot.now at from (record { kind = kind; size = size }) }
{
    if get_u16(snapshot, at) != kind {
        return false;
    }
    if get_u32(snapshot, at + KIND_SIZE) as usize != from {
        return false;
    }
    get_u32(snapshot, at + KIND_SIZE + NUMBER_SIZE) as usize == size
}

// Whether contents that are there tell of parts of these kinds and lengths, with no gap between the bodies and nothing after the last.
fn slots_say(snapshot: &[u8], kinds: &[u16], lengths: &[usize]) -> bool
    requires lengths_len { length lengths.now ≡ length kinds.now }
    requires kinds_in_bounds { contents_size (length kinds.now) ≤ length snapshot.now }
    ensures { result ≡ says_from snapshot.now count_size (contents_size (length kinds.now)) (slots kinds.now lengths.now) }
{
    let mut from: usize = contents_size(kinds.len());
    for i in 0..kinds.len() {
        let size = lengths[i];
        if !slot_says(snapshot, COUNT_SIZE + SLOT_SIZE * i, kinds[i], from, size) {
            return false;
        }
        if snapshot.len() - from < size {
            return false;
        }
        from += size;
    }
    snapshot.len() == from
}

// Whether the snapshot is laid out as parts of these kinds and lengths.
pub fn laid_out(snapshot: &[u8], kinds: &[u16], lengths: &[usize]) -> bool
    requires { length lengths.now ≡ length kinds.now }
    ensures { result ≡ laid_out snapshot.now (slots kinds.now lengths.now) }
{
    if snapshot.len() < COUNT_SIZE {
        return false;
    }
    if get_u16(snapshot, 0) as usize != kinds.len() {
        return false;
    }
    if snapshot.len() < contents_size(kinds.len()) {
        return false;
    }
    slots_say(snapshot, kinds, lengths)
}
