// Drives one bucket of each type as recorded: a record of standard input names a step and its operands, a line of standard output
// gives what crate `token_bucket` answers and the bucket after it. `oracle/record` wrote both files, from the unchanged Rust;
// `oracle/README.md` lists the steps. A step that changes a bucket is run by value and on a lent copy, and a line says so where the
// two differ.
#![tactic(auto)]

mod answers;
mod byte_steps;
mod discrete_steps;
mod lending;

use replay::line::Line;
use replay::program;
use replay::record::Record;
use token_bucket::bytes::{ByteRateLimitConfig, ByteTokenBucket};
use token_bucket::discrete::DiscreteTokenBucket;

// The two buckets that the steps drive.
#[derive(Clone, Copy)]
struct Buckets {
    discrete: DiscreteTokenBucket,
    bytes: ByteTokenBucket,
}

fn main(rt: HostRuntime) {
    let mut buckets = Buckets {
        discrete: DiscreteTokenBucket::new(0, 0),
        bytes: ByteTokenBucket::new(ByteRateLimitConfig::new(0, 0)),
    };
    program::for_each_record(&rt, |r| program::print(&rt, answer(&mut buckets, r)));
}

// Kept: each number of the recorded list stands in one match alone; an enum between would only name it once more.
fn answer(buckets: &mut Buckets, r: Record) -> Line {
    match r.operation {
        0..=3 | 13 => {
            let step = discrete_steps::step(buckets.discrete, r);
            buckets.discrete = step.state;
            discrete_steps::with_bucket(step.answer, step.state)
        }
        4..=12 | 14 => {
            let step = byte_steps::step(buckets.bytes, r);
            buckets.bytes = step.state;
            byte_steps::with_bucket(step.answer, step.state)
        }
        _ => Line::empty().text(b"unknown operation").then(r.operation),
    }
}
