// Products of unsigned numbers, limb by limb: of two u64, over a u32, and of four limbs and a u32.
//
// Every sum of a column is one `mul_add`, which keeps each bit of it, so no carry can be lost.
ghost use Rattle.std.specs.Prelude.{◌≡◌, ◌+◌, ◌*◌, ◌/◌, ◌<◌};
ghost use Rattle.amount_limbs.specs.Limbs.{digits, saturated_unsigned};

use super::divide::divide;
use super::halves::Halves;

// A column: the product of two limbs, the carry of the column below and a limb to be added, which together always fit.
fn mul_add(a: u32, b: u32, carry: u32, added: u32) -> Halves
    ensures { result.low + result.high * 4294967296 ≡ a * b + carry + added }
{
    Halves::of((a as u64) * (b as u64) + (carry as u64) + (added as u64))
}

// The whole product of two u64: a times the low half of b, and to that, one limb up, a times the high half.
pub fn product(a: u64, b: u64) -> [u32; 4]
    ensures { digits result ≡ a * b }
{
    let a = Halves::of(a);
    let b = Halves::of(b);
    let first = mul_add(a.low, b.low, 0, 0);
    let cross = mul_add(a.high, b.low, first.high, 0);
    let second = mul_add(a.low, b.high, 0, cross.low);
    let third = mul_add(a.high, b.high, second.high, cross.high);
    [first.low, second.low, third.low, third.high]
}

// The limbs' number divided by a u32, rounded down. Where the divisor is a constant, this compiles to no division.
pub fn over(limbs: [u32; 4], divisor: u32) -> [u32; 4]
    requires { 0 < divisor }
    ensures { digits result ≡ digits limbs / divisor }
{
    divide(limbs, divisor as u64).limbs
}

// The limbs' number times a u32, or 2^128 - 1 where that is more than four limbs hold.
pub fn times(limbs: [u32; 4], factor: u32) -> [u32; 4]
    ensures { digits result ≡ saturated_unsigned (factor * digits limbs) }
{
    let first = mul_add(limbs[0], factor, 0, 0);
    let second = mul_add(limbs[1], factor, first.high, 0);
    let third = mul_add(limbs[2], factor, second.high, 0);
    let fourth = mul_add(limbs[3], factor, third.high, 0);
    if fourth.high == 0 {
        [first.low, second.low, third.low, fourth.low]
    } else {
        [0xffff_ffff, 0xffff_ffff, 0xffff_ffff, 0xffff_ffff]
    }
}
