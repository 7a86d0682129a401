// A row stored under its key, its entry as numbers. The contract speaks of raw rows whose keys are as long as the key stored;
// `stored_under` of `ChangeLaws` carries it to any layout of those widths.
ghost use Rattle.std.specs.Prelude.{◌≡◌, ◌+◌, ◌*◌, ◌≤◌, length};
ghost use Rattle.table.specs.Memory.{word_bytes};
ghost use Rattle.table_laws.specs.Private.{RawStored};

use super::find::place_of;
use table::seek::Seek;

// Stores the numbers under the key: over the row of that key, or in a row put in where the key belongs. Answers how many rows there
// are then. Keys have eight bytes at least.
pub fn store(table: &mut [u8], width: usize, count: usize, key: &[u8], words: &[u64]) -> usize
    requires key_len_in_bounds { (8 ≤ length key.now) × (length key.now + 8 * length words.now ≡ width) }
    requires count_in_bounds { width * (count + 1) ≤ length table.old }
    ensures { RawStored width table.old table.new count result key.now (word_bytes words.now) }
{
    match place_of(table, width, count, key) {
        Seek::At(index) => {
            table::rows::put_words(table, width * index + key.len(), words);
            count
        }
        Seek::Gap(index) => {
            table::rows::insert_row(table, width, count, index, key, words);
            count + 1
        }
        // A search never answers this: only a judging walk does.
        Seek::Unsound => count,
    }
}
