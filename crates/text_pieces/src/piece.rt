// A text that is given, blanks, a number.
ghost use Rattle.std.specs.Prelude.{◌+◌, ◌≤◌, length};
ghost use Rattle.text_pieces.specs.Text.{blanks, number_text, refusal_text, refusal_room};
ghost use Rattle.text_pieces.specs.Private.{Wrote};

use lent_bytes::run::{fill, put_slice};

// Writes a text.
pub fn put_text(out: &mut [u8], at: usize, text: &[u8]) -> usize
    requires { at + length text.now ≤ length out.old }
    ensures { Wrote out.old at text.now result out.new }
{
    put_slice(out, at, text);
    at + text.len()
}

// Writes so many blanks.
pub fn put_blanks(out: &mut [u8], at: usize, count: usize) -> usize
    requires { at + count ≤ length out.old }
    ensures { Wrote out.old at (blanks count) result out.new }
{
    fill(out, at, count, b' ');
    at + count
}

// Writes a blank and the number.
pub fn put_number(out: &mut [u8], at: usize, n: u64) -> usize
    requires { at + length (number_text n) ≤ length out.old }
    ensures { Wrote out.old at (number_text n) result out.new }
{
    out[at] = b' ';
    decimal::put_decimal(out, at + 1, n)
}

// Writes the line `refusal N` at the front.
pub fn put_refusal(out: &mut [u8], number: u64) -> usize
    requires { refusal_room ≤ length out.old }
    ensures { Wrote out.old 0 (refusal_text number) result out.new }
{
    let after_word = put_text(out, 0, b"refusal");
    let after_number = put_number(out, after_word, number);
    out[after_number] = b'\n';
    after_number + 1
}
