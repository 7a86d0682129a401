// Numbers in a line, with single blanks between them.
ghost use Rattle.std.specs.Prelude.{◌≡◌, length};
ghost use Rattle.trace_lines.specs.Lines.{blank_then_number, field_of, value_of, ends_line};

// The largest numbers of 32 and 64 bits: what a field holds.
pub const LARGEST_32: u64 = 4_294_967_295;

pub const LARGEST_64: u64 = 18_446_744_073_709_551_615;

// The number behind a single blank at the place.
pub fn blank_then_number(line: &[u8], at: usize, most: u64) -> Option<(u64, usize)>
    ensures { result ≡ blank_then_number line.now at most }
{
    if line.len() <= at {
        return None;
    }
    if line[at] != b' ' {
        return None;
    }
    decimal::scan(line, at + 1, most)
}

// The field behind another one.
pub fn field(line: &[u8], before: Option<(u64, usize)>, most: u64) -> Option<(u64, usize)>
    ensures { result ≡ field_of line.now before most }
{
    match before {
        Some((_, at)) => blank_then_number(line, at, most),
        None => None,
    }
}

// A field's number.
pub fn value(field: Option<(u64, usize)>) -> u64
    ensures { result ≡ value_of field }
{
    match field {
        Some((value, _)) => value,
        None => 0,
    }
}

// Whether the field is good and the line ends behind it.
pub fn ends(line: &[u8], field: Option<(u64, usize)>) -> bool
    ensures { result ≡ ends_line line.now field }
{
    match field {
        Some((_, at)) => at == line.len(),
        None => false,
    }
}
