// An amount without its sign, in two 64-bit halves: a sum or a comparison takes half the steps that it takes on limbs.

ghost use Rattle.std.specs.Prelude.{◌≡◌, ◌+◌, ◌-◌, ◌*◌, ◌^◌, ◌≤◌, ◌==◌, nat_lt};
ghost use Rattle.amount_limbs.specs.Limbs.{digits};
ghost use Rattle.amount.specs.Private.{size};

use amount_limbs::halves::Halves;

#[derive(Clone, Copy)]
pub struct Magnitude {
    pub low: u64,
    pub high: u64,
}

pub fn of_u64(n: u64) -> Magnitude
    ensures { size result ≡ n }
{
    Magnitude { low: n, high: 0 }
}

pub fn of_limbs(limbs: [u32; 4]) -> Magnitude
    ensures { size result ≡ digits limbs }
{
    let low = Halves {
        low: limbs[0],
        high: limbs[1],
    };
    let high = Halves {
        low: limbs[2],
        high: limbs[3],
    };
    Magnitude {
        low: low.joined(),
        high: high.joined(),
    }
}

pub fn to_limbs(m: Magnitude) -> [u32; 4]
    ensures { digits result ≡ size m }
{
    let low = Halves::of(m.low);
    let high = Halves::of(m.high);
    [low.low, low.high, high.low, high.high]
}

pub fn is_zero(m: Magnitude) -> bool
    ensures { result ≡ (size m == 0) }
{
    m.high == 0 && m.low == 0
}

pub fn is_below(a: Magnitude, b: Magnitude) -> bool
    ensures { result ≡ nat_lt (size a) (size b) }
{
    (a.high, a.low) < (b.high, b.low)
}

// How much a is above b, and 0 where it is not.
pub fn excess(a: Magnitude, b: Magnitude) -> Magnitude
    ensures { size result ≡ size a - size b }
{
    if is_below(a, b) {
        return Magnitude { low: 0, high: 0 };
    }
    if a.low < b.low {
        return Magnitude {
            low: std::num::wrapping_sub_u64(a.low, b.low),
            high: a.high - b.high - 1,
        };
    }
    Magnitude {
        low: a.low - b.low,
        high: a.high - b.high,
    }
}

// A sum of two halves, and what it carries into the next half.
#[derive(Clone, Copy)]
pub struct Carried {
    pub sum: u64,
    pub carry: u64,
}

pub fn carried_sum(a: u64, b: u64) -> Carried
    ensures { (result.sum + 18446744073709551616 * result.carry ≡ a + b) × (result.carry ≤ 1) }
{
    let sum = std::num::wrapping_add_u64(a, b);
    if sum < a {
        return Carried { sum, carry: 1 };
    }
    Carried { sum, carry: 0 }
}
