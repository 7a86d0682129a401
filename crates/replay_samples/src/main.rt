// Runs the marked samples A to F of the two token buckets (of C what it says of the bucket alone) and writes what each step
// answers, a line a step. The file `stdout` holds what the samples say, written by hand.
//
// A record of standard input is a sample: its letter, then its numbers in the order in which the steps below read them.
#![tactic(auto)]

mod byte_steps;
mod discrete_steps;

use bucket_terms::answer::NotGiven;
use replay::line::Line;
use replay::program;
use replay::record::Record;
use token_bucket::bytes::{ByteRateLimitConfig, ByteTokenBucket};
use token_bucket::discrete::DiscreteTokenBucket;

fn main(rt: HostRuntime) {
    program::for_each_record(&rt, |r| {
        run(&rt, r);
        true
    });
}

fn run(rt: &HostRuntime, r: Record) {
    let letter = (r.operation % 256) as u8;
    match letter {
        b'A' | b'B' => one_token_each_time(rt, letter, r),
        b'C' => same_bytes_three_times(rt, letter, r),
        b'D' | b'E' => {
            byte_steps::reserve(rt, letter, byte_bucket(r), r.third, r.fourth);
        }
        b'F' => debt_after_reserve(rt, letter, r),
        _ => {
            program::print(rt, Line::empty().text(b"unknown sample").then(r.operation));
        }
    }
}

fn byte_bucket(r: Record) -> ByteTokenBucket {
    ByteTokenBucket::new(ByteRateLimitConfig::new(r.first, r.second))
}

// Interval, burst, and the times: five in sample A, four in sample B.
fn one_token_each_time(rt: &HostRuntime, letter: u8, r: Record) {
    let Ok(burst) = u32::try_from(r.second) else {
        program::print(rt, Line::empty().byte(letter).text(b" more than 32 bits"));
        return;
    };
    let mut bucket = DiscreteTokenBucket::new(r.first, burst);
    for now_ms in [r.third, r.fourth, r.fifth, r.sixth] {
        bucket = discrete_steps::take(rt, letter, bucket, now_ms);
    }
    if letter == b'A' {
        discrete_steps::take(rt, letter, bucket, r.seventh);
    }
}

// Rate, burst, bytes, and three times.
fn same_bytes_three_times(rt: &HostRuntime, letter: u8, r: Record) {
    let mut bucket = byte_bucket(r);
    for now_ms in [r.fourth, r.fifth, r.sixth] {
        bucket = byte_steps::take(rt, letter, bucket, r.third, now_ms);
    }
}

// Rate, burst, bytes, a time, and two times at which debt is asked for.
fn debt_after_reserve(rt: &HostRuntime, letter: u8, r: Record) {
    let bucket = byte_steps::reserve(rt, letter, byte_bucket(r), r.third, r.fourth);
    byte_steps::ask_debt(rt, letter, bucket, r.fifth);
    byte_steps::ask_debt(rt, letter, bucket, r.sixth);
}

// Whether what was asked for was there, and taken.
pub(crate) fn consumed(line: Line, answer: Result<(), NotGiven>) -> Line {
    match answer {
        Ok(()) => line.text(b"yes"),
        Err(NotGiven::Short(_)) => line.text(b"no"),
        Err(NotGiven::Refused(n)) => line.refusal(n.number()),
    }
}
