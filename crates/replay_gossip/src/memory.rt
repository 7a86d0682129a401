// The records that reach into the two memories: 0 fills and lends them, 5 makes a call over what is lent, 6 writes a word, 7 writes rows.
use crate::held::{Held, says};
use crate::{calls, rows};
use replay::checksum::fill;
use replay::line::Line;
use replay::memory::put_word;
use replay::record::Record;

// One stream of made-up bytes fills both.
pub(crate) fn lend(held: &mut Held, first: &mut [u8], second: &mut [u8], r: Record) {
    let rest = fill(first, r.first);
    fill(second, rest);
    *held = Held::lending(r.second as usize, r.third as usize);
}

pub(crate) fn call(held: &mut Held, first: &mut [u8], second: &mut [u8], r: Record) -> Line {
    let first_lent = held.first_lent;
    let second_lent = held.second_lent;
    if first_lent > first.len() || second_lent > second.len() {
        return beyond();
    }
    calls::answered(
        held,
        &mut first[..first_lent],
        &mut second[..second_lent],
        r,
    )
}

pub(crate) fn write(first: &mut [u8], second: &mut [u8], r: Record) -> Line {
    let at = r.second as usize;
    match r.first {
        0 => done(put_word(first, at, r.third)),
        1 => done(put_word(second, at, r.third)),
        _ => beyond(),
    }
}

pub(crate) fn fill_rows(first: &mut [u8], second: &mut [u8], r: Record) -> Line {
    match r.first {
        0 => done(rows::put_rows(first, r)),
        1 => done(rows::put_rows(second, r)),
        _ => beyond(),
    }
}

fn done(within: bool) -> Line {
    if within { says(b"-") } else { beyond() }
}

fn beyond() -> Line {
    says(b"beyond the memory")
}
