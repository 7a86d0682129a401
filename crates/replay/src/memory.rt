// The memory that a replaying program lends, set up by its records.
ghost use Rattle.replay.specs.Memory.{WordPut};

use lent_bytes::number::put_u64;

// Writes a word at a place, and answers whether there is room for it; where there is none, nothing is written.
pub fn put_word(memory: &mut [u8], at: usize, word: u64) -> bool
    ensures { WordPut memory.old at word result memory.new }
{
    if memory.len() < 8 {
        return false;
    }
    if at > memory.len() - 8 {
        return false;
    }
    put_u64(memory, at, word);
    true
}
