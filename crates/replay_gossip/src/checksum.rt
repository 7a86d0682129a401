// A number that stands for all words and every lent byte.
use crate::held::Held;
use replay::checksum::{add, add_bytes, add_word};

pub(crate) fn of(held: &Held, first: &[u8], second: &[u8]) -> u64 {
    let mut sum = 0;
    for n in held.longs {
        sum = add_word(sum, n);
    }
    for n in held.shorts {
        sum = add(sum, n);
    }
    add_bytes(add_bytes(sum, first), second)
}
