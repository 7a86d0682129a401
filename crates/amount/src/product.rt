// Products of amounts: of two u64 over a u32, and of an amount and a u32.
ghost use Rattle.std.specs.Prelude.{◌≡◌, ◌*◌, ◌/◌, ◌<◌, pos};
ghost use Rattle.amount_limbs.specs.Limbs.{saturated_unsigned};
ghost use Rattle.amount.specs.Amount.{value, natural};
ghost use Rattle.amount.specs.Private.{Is};

use super::Amount;
use amount_limbs::product::{over, product, times};

impl Amount {
    // a * b / divisor, rounded down, of the whole 128-bit product. It runs for every admit, so it has no loop and no long division, and
    // factors of 32 bits, as they nearly always are, take one product.
    pub fn product_over(a: u64, b: u64, divisor: u32) -> Amount
        requires { 0 < divisor }
        ensures { Is result (pos (a * b / divisor)) }
    {
        if a < 0x1_0000_0000 && b < 0x1_0000_0000 {
            return Amount::from_u64(a * b / (divisor as u64));
        }
        let limbs = over(product(a, b), divisor);
        Amount {
            negative: false,
            limbs,
        }
    }

    // Rust's `u128::saturating_mul`; a negative amount counts as 0.
    pub fn times(self, factor: u32) -> Amount
        ensures { Is result (pos (saturated_unsigned (factor * natural (value self)))) }
    {
        if self.negative {
            let none = [0, 0, 0, 0];
            return Amount {
                negative: false,
                limbs: none,
            };
        }
        let limbs = self.limbs;
        let product = times(limbs, factor);
        Amount {
            negative: false,
            limbs: product,
        }
    }
}
