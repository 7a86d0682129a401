// A sign with a magnitude: sums that stop at the ends of an i128, and order.

ghost use Rattle.std.specs.Prelude.{◌≡◌, ◌+◌, ◌^◌, not, ◌+ℤ◌, int_lt};
ghost use Rattle.amount.specs.Amount.{signed, saturated};
ghost use Rattle.amount.specs.Private.{Is};
ghost use Rattle.amount.specs.Private.{size};

use crate::magnitude::Magnitude;
use crate::{Amount, magnitude};

// The amount with that sign and magnitude. Zero has no sign.
pub fn amount_of(negative: bool, m: Magnitude) -> Amount
    ensures { Is result (signed negative (size m)) }
{
    let limbs = magnitude::to_limbs(m);
    if magnitude::is_zero(m) {
        return Amount {
            negative: false,
            limbs,
        };
    }
    Amount { negative, limbs }
}

// The end of an i128 on that side: -2^127, or 2^127 - 1.
fn limit(negative: bool) -> Amount
    ensures { Is result (saturated (signed negative (2 ^ 127))) }
{
    if negative {
        return Amount {
            negative,
            limbs: [0, 0, 0, 0x8000_0000],
        };
    }
    Amount {
        negative,
        limbs: [0xffff_ffff, 0xffff_ffff, 0xffff_ffff, 0x7fff_ffff],
    }
}

pub fn clamped(negative: bool, m: Magnitude) -> Amount
    ensures { Is result (saturated (signed negative (size m))) }
{
    if m.high < 0x8000_0000_0000_0000 {
        return amount_of(negative, m);
    }
    limit(negative)
}

// Where either magnitude is 2^127 or more the sum is past the end, and where none is it needs no bit above the 128.
fn sum_of_like(negative: bool, a: Magnitude, b: Magnitude) -> Amount
    ensures { Is result (saturated (signed negative (size a) +ℤ signed negative (size b))) }
{
    if a.high >= 0x8000_0000_0000_0000 || b.high >= 0x8000_0000_0000_0000 {
        return limit(negative);
    }
    let low = magnitude::carried_sum(a.low, b.low);
    clamped(
        negative,
        Magnitude {
            low: low.sum,
            high: a.high + b.high + low.carry,
        },
    )
}

// The larger magnitude gives the sign; where they are equal, the sum is zero and has none.
fn sum_of_unlike(negative: bool, a: Magnitude, b: Magnitude) -> Amount
    ensures { Is result (saturated (signed negative (size a) +ℤ signed (not negative) (size b))) }
{
    if magnitude::is_below(a, b) {
        return clamped(!negative, magnitude::excess(b, a));
    }
    clamped(negative, magnitude::excess(a, b))
}

// The sum of a, which is negative where `negative` says so, and of b, which is where `other` does.
pub fn sum(negative: bool, a: Magnitude, other: bool, b: Magnitude) -> Amount
    ensures { Is result (saturated (signed negative (size a) +ℤ signed other (size b))) }
{
    if negative == other {
        return sum_of_like(negative, a, b);
    }
    sum_of_unlike(negative, a, b)
}

// Whether a is less than b, with signs as in `sum`.
pub fn is_less(negative: bool, a: Magnitude, other: bool, b: Magnitude) -> bool
    ensures { result ≡ int_lt (signed negative (size a)) (signed other (size b)) }
{
    if negative {
        if other {
            return magnitude::is_below(b, a);
        }
        // Minus zero is not below zero.
        if magnitude::is_zero(a) {
            return !magnitude::is_zero(b);
        }
        return true;
    }
    if other {
        return false;
    }
    magnitude::is_below(a, b)
}
