// Standard input and output of the programs.
//
// A program that can't read or write says so in a line of standard error that begins with `failed: `, and ends with status 0 all the
// same: the script `run-program` judges by that line. Which bytes are read and written is no part of any contract, since the system
// reads and writes them: `scripts/test-admit-trace` tries it.
#![tactic(auto)]

ghost use Rattle.std.specs.Prelude.{◌≡◌, IfOk};
ghost use Rattle.std.specs.Result.{result_ok};
ghost use Rattle.standard.specs.Input.{IsPrefixLen, ReadInto};

use std::io;
use std::io::{Read, Write};

// Reads until the buffer is full or the input ends. A read that fails is no end of the input, and neither is one that would have to
// wait where the input says that it must not.
pub fn read(rt: &HostRuntime, buffer: &mut [u8]) -> Option<usize>
    ensures { ReadInto result buffer.new }
{
    let count = fill(rt, buffer);
    or_said(rt, "reading standard input", count)
}

// Writes bytes, and answers whether that went well; where it did not, some of them may have been written.
pub fn write(rt: &HostRuntime, bytes: &[u8]) -> bool {
    let wrote = rt.stdout().write_all(bytes);
    or_said(rt, "writing standard output", wrote).is_some()
}

// How many bytes were read.
fn fill(rt: &HostRuntime, buffer: &mut [u8]) -> io::Result<usize>
    ensures { IfOk result (λ n. IsPrefixLen n buffer.new) }
{
    let mut input = rt.stdin();
    let mut count: usize = 0;
    while count < buffer.len() {
        let more = input.read(&mut buffer[count..])?;
        if more == 0 {
            break;
        }
        count += more;
    }
    Ok(count)
}

// What a call gave; where it failed, that is said. Where standard error can't be written either, nothing is left to say it by.
fn or_said<T>(rt: &HostRuntime, doing: &str, done: io::Result<T>) -> Option<T>
    ensures { result ≡ result_ok done }
{
    match done {
        Ok(given) => Some(given),
        Err(error) => {
            let _said = eprintln!(rt; "failed: {doing}: {error}");
            None
        }
    }
}
