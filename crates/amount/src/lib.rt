// Rust's i128 and u128 by value: four 32-bit limbs and a sign (a support crate).
//
// Every contract goes through `value`, the integer that an amount stands for, and is total: any limbs and either sign may come
// in, minus zero too. An i128 answer saturates at -2^127 and 2^127 - 1, a u128 answer at 2^128 - 1, and no answer is minus zero.
// A value in range has one representation (`AmountLaws.one_representation`), so these contracts determine the limbs.
#![tactic(auto)]

mod magnitude;
mod signed;

ghost use Rattle.std.specs.Prelude.{◌≡◌, ℕ, ◌-◌, ◌*◌, ◌/◌, ◌%◌, ◌^◌, ◌<◌, min, pos, ◌+ℤ◌, ◌-ℤ◌, int_lt};
ghost use Rattle.amount.specs.Private.{size};
ghost use Rattle.amount_limbs.specs.Limbs.{digits};
ghost use Rattle.amount.specs.Amount.{value, saturated, natural, lesser, is_i128};
ghost use Rattle.amount.specs.Private.{Is};

use magnitude::Magnitude;

mod divide;
mod product;

// An integer of up to 128 bits and a sign: the limbs' number, the least limb first, negated where `negative` is set.
#[derive(Clone, Copy, Debug, PartialEq, Eq)]
pub struct Amount {
    pub negative: bool,
    pub limbs: [u32; 4],
}

impl Amount {
    pub fn from_u64(n: u64) -> Amount
        ensures { Is result (pos n) }
    {
        signed::amount_of(false, magnitude::of_u64(n))
    }

    fn magnitude(self) -> Magnitude
        ensures { size result ≡ digits self.limbs }
    {
        magnitude::of_limbs(self.limbs)
    }

    // Minus zero is not negative.
    pub fn is_negative(self) -> bool
        ensures { result ≡ int_lt (value self) (pos 0) }
    {
        signed::is_less(self.negative, self.magnitude(), false, magnitude::of_u64(0))
    }

    pub fn is_below(self, other: Amount) -> bool
        ensures { result ≡ int_lt (value self) (value other) }
    {
        signed::is_less(
            self.negative,
            self.magnitude(),
            other.negative,
            other.magnitude(),
        )
    }

    pub fn is_above(self, n: u64) -> bool
        ensures { result ≡ int_lt (pos n) (value self) }
    {
        signed::is_less(false, magnitude::of_u64(n), self.negative, self.magnitude())
    }

    pub fn lesser(self, n: u64) -> Amount
        ensures { Is result (saturated (lesser (value self) (pos n))) }
    {
        let m = self.magnitude();
        let other = magnitude::of_u64(n);
        if signed::is_less(self.negative, m, false, other) {
            return signed::clamped(self.negative, m);
        }
        signed::clamped(false, other)
    }

    pub fn saturating_add(self, other: Amount) -> Amount
        ensures { Is result (saturated (value self +ℤ value other)) }
    {
        signed::sum(
            self.negative,
            self.magnitude(),
            other.negative,
            other.magnitude(),
        )
    }

    pub fn saturating_sub(self, n: u64) -> Amount
        ensures { Is result (saturated (value self -ℤ pos n)) }
    {
        signed::sum(self.negative, self.magnitude(), true, magnitude::of_u64(n))
    }

    // What is missing up to n, and 0 where nothing is: Rust's `n.saturating_sub(self).max(0) as u128`.
    pub fn deficit(self, n: u64) -> Amount
        ensures { Is result (pos (natural (saturated (pos n -ℤ value self)))) }
    {
        let missing = signed::sum(
            false,
            magnitude::of_u64(n),
            !self.negative,
            self.magnitude(),
        );
        if missing.is_negative() {
            return Amount::from_u64(0);
        }
        missing
    }

    pub fn to_u64(self) -> u64
        ensures { result ≡ min (natural (value self)) (2 ^ 64 - 1) }
    {
        if self.negative {
            return 0;
        }
        let m = self.magnitude();
        if m.high == 0 {
            return m.low;
        }
        0xffff_ffff_ffff_ffff
    }

    pub fn is_i128(self) -> bool
        ensures { result ≡ is_i128 self }
    {
        let m = self.magnitude();
        if !self.negative {
            return m.high < 0x8000_0000_0000_0000;
        }
        if m.high < 0x8000_0000_0000_0000 {
            return !magnitude::is_zero(m);
        }
        // -2^127 is an i128, and nothing below it is.
        if m.high == 0x8000_0000_0000_0000 {
            return m.low == 0;
        }
        false
    }
}
