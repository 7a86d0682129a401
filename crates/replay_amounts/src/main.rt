// Answers the recorded calls on amounts: a record of standard input names an operation and its operands, a line of standard
// output gives what crate `amount` answers. `oracle/record` wrote both files, from Rust's own i128 and u128; `oracle/README.md`
// lists the operations.
#![tactic(auto)]

use amount::Amount;
use replay::line::Line;
use replay::record::Record;
use replay::{program, record};

// What the recorded products are over, and times.
const THOUSAND: u32 = 1_000;

fn main(rt: HostRuntime) {
    program::for_each_record(&rt, |r| program::print(&rt, answer(r)));
}

fn answer(r: Record) -> Line {
    let a = record::amount_of(r.first, r.second, r.third);
    let b = record::amount_of(r.fourth, r.fifth, r.sixth);
    let n = r.fourth;
    let line = Line::empty();
    // Kept: each number of the recorded list stands here alone; an enum between would only name it once more.
    match r.operation {
        0 => line.amount(Amount::from_u64(r.first)),
        1 => line.truth(a.is_negative()),
        2 => line.truth(a.is_below(b)),
        3 => line.truth(a.is_above(n)),
        4 => line.amount(a.lesser(n)),
        5 => line.amount(a.saturating_add(b)),
        6 => line.amount(a.saturating_sub(n)),
        7 => line.amount(a.deficit(n)),
        8 => line.decimal(a.to_u64()),
        9 => line.truth(a.is_i128()),
        10 => line.amount(Amount::product_over(r.first, r.second, THOUSAND)),
        11 => line.amount(a.times(THOUSAND)),
        12 => quotient(line, a, n),
        _ => line.text(b"unknown operation").then(r.operation),
    }
}

fn quotient(line: Line, a: Amount, divisor: u64) -> Line {
    if divisor == 0 {
        return line.text(b"divisor 0");
    }
    line.decimal(a.div_ceil_low(divisor))
}
