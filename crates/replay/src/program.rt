// What a replaying program does with standard input and output: no contract says what is read and written.
use super::line::{LINE_SIZE, Line};
use super::record;
use super::record::{RECORD_SIZE, Record};

// What standard input holds next. `Cut` is an end within it.
#[derive(Clone, Copy)]
pub enum Next<T> {
    Whole(T),
    Cut,
    End,
}

pub fn next_record(rt: &HostRuntime) -> Next<Record> {
    let mut bytes = [0u8; RECORD_SIZE];
    match standard::read(rt, &mut bytes) {
        None | Some(0) => Next::End,
        Some(count) if count < RECORD_SIZE => Next::Cut,
        Some(_) => Next::Whole(record::decoded(&bytes)),
    }
}

// Writes the line and its end, and answers whether that went well.
pub fn print(rt: &HostRuntime, line: Line) -> bool {
    let ended = line.byte(b'\n');
    let bytes = ended.bytes;
    let used = ended.used;
    if used > LINE_SIZE {
        return false;
    }
    standard::write(rt, &bytes[..used])
}

// Writes that the input ends within a record.
pub fn print_cut(rt: &HostRuntime) {
    print(rt, Line::empty().text(b"cut record"));
}

// Hands record after record to a closure, which answers whether to go on, until the input ends. A proved loop has to end, and nothing says
// that the input does: so the records are counted up to a number that no run reaches.
pub fn for_each_record<F: FnMut(Record) -> bool>(rt: &HostRuntime, mut goes_on: F)
    requires { F.IsAlwaysCallable goes_on }
{
    for _ in 0..u64::MAX {
        match next_record(rt) {
            Next::Whole(record) => {
                if !goes_on(record) {
                    return;
                }
            }
            Next::Cut => {
                print_cut(rt);
                return;
            }
            Next::End => return,
        }
    }
}
