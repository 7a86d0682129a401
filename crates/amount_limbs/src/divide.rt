// A 128-bit number divided by a u64: long division over the limbs, the most significant first.
ghost use Rattle.std.specs.Prelude.{◌≡◌, ◌+◌, ◌*◌, ◌%◌, ◌^◌, ◌<◌, ◌≤◌};
ghost use Rattle.amount_limbs.specs.Limbs.{digits};

use super::halves::Halves;

// One bit or one limb of a quotient, and what is left for what stands below it.
#[derive(Clone, Copy)]
struct QuotientPart {
    quotient: u32,
    rest: u64,
}

// A whole quotient, and what is left of the dividend.
#[derive(Clone, Copy, Debug, PartialEq, Eq)]
pub struct Quotient {
    pub limbs: [u32; 4],
    pub rest: u64,
}

// Brings down one bit. 2 * rest + bit may pass 2^64, so what is compared is rest + bit, with what is missing from rest to d.
fn divide_bit(rest: u64, bit: u32, d: u64) -> QuotientPart
    requires { (rest < d) × (bit ≤ 1) }
    ensures { (result.quotient * d + result.rest ≡ 2 * rest + bit) × (result.rest < d) × (result.quotient ≤ 1) }
{
    let missing = d - rest;
    let more = rest + (bit as u64);
    if missing <= more {
        QuotientPart {
            quotient: 1,
            rest: more - missing,
        }
    } else {
        QuotientPart {
            quotient: 0,
            rest: rest + more,
        }
    }
}

// Brings down one limb bit by bit: for a dividend that no u64 holds.
fn divide_bits(rest: u64, limb: u32, d: u64) -> QuotientPart
    requires { rest < d }
    ensures { (result.quotient * d + result.rest ≡ rest * 4294967296 + limb) × (result.rest < d) }
{
    let mut quotient: u32 = 0;
    let mut kept = rest;
    let mut left = limb;
    for _i in 0..32u32 {
        let step = divide_bit(kept, left / 0x8000_0000, d);
        left = left % 0x8000_0000 * 2;
        quotient = quotient * 2 + step.quotient;
        kept = step.rest;
    }
    QuotientPart {
        quotient,
        rest: kept,
    }
}

// Brings down one limb, by one hardware division where the dividend fits a u64.
fn divide_step(rest: u64, limb: u32, d: u64) -> QuotientPart
    requires { rest < d }
    ensures { (result.quotient * d + result.rest ≡ rest * 4294967296 + limb) × (result.rest < d) }
{
    if rest < 0x1_0000_0000 {
        let dividend = rest * 0x1_0000_0000 + (limb as u64);
        return QuotientPart {
            quotient: (dividend / d) as u32,
            rest: dividend % d,
        };
    }
    divide_bits(rest, limb, d)
}

// The whole division. Each limb of the quotient takes the place of the limb of the dividend that it came from.
pub fn divide(limbs: [u32; 4], d: u64) -> Quotient
    requires { 0 < d }
    ensures { (digits result.limbs * d + result.rest ≡ digits limbs) × (result.rest < d) }
{
    let mut working = limbs;
    let mut rest: u64 = 0;
    // Kept: document 01 asks for this loop, which gives its quotient by `break`.
    let mut i: usize = 4;
    let quotient = loop {
        if i == 0 {
            break working;
        }
        i -= 1;
        let step = divide_step(rest, working[i], d);
        working[i] = step.quotient;
        rest = step.rest;
    };
    Quotient {
        limbs: quotient,
        rest,
    }
}

// The low 64 bits of the limbs' number.
pub fn low_half(limbs: [u32; 4]) -> u64
    ensures { result ≡ digits limbs % 2 ^ 64 }
{
    Halves {
        low: limbs[0],
        high: limbs[1],
    }
    .joined()
}
