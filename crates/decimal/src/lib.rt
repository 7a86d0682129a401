// Numbers as decimal text, without extra zeros (a support crate: `put_decimal` requires room for what it writes).
//
// A number has one spelling: what `put_decimal` writes, `scan` reads back, and `scan` takes nothing else.
#![tactic(auto)]

ghost use Rattle.std.specs.Prelude.{◌≡◌, ◌+◌, ◌≤◌, length, get_or, drop};
ghost use Rattle.lent_bytes.specs.LentBytes.{put};
ghost use Rattle.decimal.specs.Ascii.{code};
ghost use Rattle.decimal.specs.Decimal.{is_digit, digits_of, digits_at_front, value_from, bounded, number_of, scan_of};

// How many digits a number has at most.
pub const MOST_DIGITS: usize = 20;

// The number at the place: all the digits that stand there, no zero before others, at most `most`.
pub fn scan(text: &[u8], at: usize, most: u64) -> Option<(u64, usize)>
    ensures { result ≡ scan_of text.now at most }
{
    if text.len() <= at {
        return None;
    }
    let first = text[at];
    match first {
        b'0' => zero_alone(text, at),
        b'1'..=b'9' => run_of_digits(text, at, most),
        _ => None,
    }
}

// A zero is a number where no digit follows it.
fn zero_alone(text: &[u8], at: usize) -> Option<(u64, usize)>
    requires { (at + 1 ≤ length text.now) × (get_or text.now at 0 ≡ code "0") }
    ensures { result ≡ number_of (digits_at_front (drop at text.now)) at 0 }
{
    let next = at + 1;
    if text.len() <= next {
        return Some((0, next));
    }
    let behind = text[next];
    match behind {
        b'0'..=b'9' => None,
        _ => Some((0, next)),
    }
}

// The number that the digits from the place on spell. It is given up as soon as it passes `most`, so no product overflows.
fn run_of_digits(text: &[u8], at: usize, most: u64) -> Option<(u64, usize)>
    requires { at ≤ length text.now }
    ensures { result ≡ bounded (value_from 0 (digits_at_front (drop at text.now))) (at + length (digits_at_front (drop at text.now))) most }
{
    let mut value: u64 = 0;
    for i in at..text.len() {
        let b = text[i];
        match b {
            b'0'..=b'9' => {
                let digit = (b - b'0') as u64;
                if value > most / 10 || digit > most - value * 10 {
                    return None;
                }
                value = value * 10 + digit;
            }
            _ => return Some((value, i)),
        }
    }
    Some((value, text.len()))
}

// How many digits the number has.
pub fn width(n: u64) -> usize
    ensures { result ≡ length (digits_of n) }
{
    let mut rest: u64 = n;
    for width in 1..MOST_DIGITS {
        if rest < 10 {
            return width;
        }
        rest /= 10;
    }
    MOST_DIGITS
}

// Writes the number's digits at the place, the last one first, and answers the place behind them.
pub fn put_decimal(out: &mut [u8], at: usize, n: u64) -> usize
    requires { at + length (digits_of n) ≤ length out.old }
    ensures { (result ≡ at + length (digits_of n)) × (out.new ≡ put out.old at (digits_of n)) }
{
    let digits = width(n);
    let mut rest: u64 = n;
    for left in (0..digits).rev() {
        out[at + left] = b'0' + (rest % 10) as u8;
        rest /= 10;
    }
    at + digits
}
