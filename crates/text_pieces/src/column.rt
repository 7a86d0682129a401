// Numbers in columns: each behind at least one blank, and right-aligned.
ghost use Rattle.std.specs.Prelude.{◌≡◌, ◌+◌, ◌-◌, ◌*◌, ◌≤◌, length};
ghost use Rattle.decimal.specs.Decimal.{most_digits};
ghost use Rattle.text_pieces.specs.Text.{column_text, columns_text, number_room};
ghost use Rattle.text_pieces.specs.Private.{Wrote};

use super::piece::{put_blanks, put_number};

// Writes a blank and the number right-aligned in so many places; a longer number takes its length.
pub fn put_column(out: &mut [u8], at: usize, width: usize, n: u64) -> usize
    requires { at + length (column_text width n) ≤ length out.old }
    ensures { Wrote out.old at (column_text width n) result out.new }
{
    let left = width.saturating_sub(decimal::width(n));
    let after_blanks = put_blanks(out, at, left);
    put_number(out, after_blanks, n)
}

// Writes numbers in columns of one width. A number has at most 20 digits, so with its blank it takes at most 21 places.
pub fn put_columns(out: &mut [u8], at: usize, width: usize, numbers: &[u64]) -> usize
    requires width_le_most_digits { width ≤ most_digits }
    requires numbers_in_bounds { at + number_room * length numbers.now ≤ length out.old }
    ensures { Wrote out.old at (columns_text width numbers.now) result out.new }
{
    let mut place = at;
    for &n in numbers {
        place = put_column(out, place, width, n);
    }
    place
}
