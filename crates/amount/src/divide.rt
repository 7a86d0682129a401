// An amount divided by a u64.
ghost use Rattle.std.specs.Prelude.{◌≡◌, ◌%◌, ◌^◌, ◌<◌};
ghost use Rattle.amount_limbs.specs.Limbs.{ceil_div};
ghost use Rattle.amount.specs.Amount.{value, natural};

use super::Amount;
use amount_limbs::divide::{divide, low_half};

impl Amount {
    // Rust's `u128::div_ceil` by a u64, then `as u64`: it is the rounded quotient that is cut to 64 bits, so rounding up can
    // wrap to 0. A negative amount counts as 0.
    pub fn div_ceil_low(self, d: u64) -> u64
        requires { 0 < d }
        ensures { result ≡ ceil_div (natural (value self)) d % 2 ^ 64 }
    {
        if self.negative {
            return 0;
        }
        let dividend = self.limbs;
        let quotient = divide(dividend, d);
        let limbs = quotient.limbs;
        let low = low_half(limbs);
        if quotient.rest == 0 {
            return low;
        }
        if low < 0xffff_ffff_ffff_ffff {
            return low + 1;
        }
        0
    }
}
