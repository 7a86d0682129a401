// The recorded traces on standard input: each its length as eight little-endian bytes, then its bytes.
use replay::program::Next;

// Reads the next trace into the buffer. One that the buffer has no room for counts as cut.
pub(crate) fn next<'a>(rt: &HostRuntime, buffer: &'a mut [u8]) -> Next<&'a [u8]> {
    let mut header = [0u8; 8];
    match standard::read(rt, &mut header) {
        None | Some(0) => Next::End,
        Some(8) => read_body(rt, buffer, u64::from_le_bytes(header) as usize),
        Some(_) => Next::Cut,
    }
}

fn read_body<'a>(rt: &HostRuntime, buffer: &'a mut [u8], length: usize) -> Next<&'a [u8]> {
    if length > buffer.len() {
        return Next::Cut;
    }
    let trace = &mut buffer[..length];
    match standard::read(rt, trace) {
        None => Next::End,
        Some(count) if count < length => Next::Cut,
        Some(_) => Next::Whole(trace),
    }
}
