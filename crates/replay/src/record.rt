// A record of eight words, and what its words spell.
ghost use Rattle.std.specs.Prelude.{◌≡◌, ◌/◌, ◌%◌, length};
ghost use Rattle.amount.specs.Amount.{value};
ghost use Rattle.replay.specs.Record.{record_of, key_of, minus, spelled};

use amount::Amount;
use amount_limbs::halves::Halves;
use lent_bytes::number::{get_u64, put_u64};

// Eight words of eight bytes.
pub const RECORD_SIZE: usize = 64;

#[derive(Clone, Copy)]
pub struct Record {
    pub operation: u64,
    pub first: u64,
    pub second: u64,
    pub third: u64,
    pub fourth: u64,
    pub fifth: u64,
    pub sixth: u64,
    pub seventh: u64,
}

pub fn decoded(bytes: &[u8; RECORD_SIZE]) -> Record
    ensures { result ≡ record_of bytes.now }
{
    Record {
        operation: get_u64(bytes, 0),
        first: get_u64(bytes, 8),
        second: get_u64(bytes, 16),
        third: get_u64(bytes, 24),
        fourth: get_u64(bytes, 32),
        fifth: get_u64(bytes, 40),
        sixth: get_u64(bytes, 48),
        seventh: get_u64(bytes, 56),
    }
}

// A word's low half.
pub fn low_half(n: u64) -> u32
    ensures { result ≡ n % 4294967296 }
{
    Halves::of(n).low
}

// A word's high half.
pub fn high_half(n: u64) -> u32
    ensures { result ≡ n / 4294967296 }
{
    Halves::of(n).high
}

// The key that five words spell: their first 33 bytes.
pub fn key_of(first: u64, second: u64, third: u64, fourth: u64, fifth: u64) -> [u8; 33]
    ensures { result ≡ key_of first second third fourth fifth }
{
    let mut bytes = [0u8; 33];
    put_u64(&mut bytes, 0, first);
    put_u64(&mut bytes, 8, second);
    put_u64(&mut bytes, 16, third);
    put_u64(&mut bytes, 24, fourth);
    bytes[32] = (fifth % 256) as u8;
    bytes
}

// The amount that three words spell: a sign, 0 for plus, and the low and the high half of the magnitude.
pub fn amount_of(sign: u64, low: u64, high: u64) -> Amount
    ensures { (result.negative ≡ minus sign) × (value result ≡ spelled sign low high) }
{
    let limbs = [
        low_half(low),
        high_half(low),
        low_half(high),
        high_half(high),
    ];
    Amount {
        negative: sign != 0,
        limbs,
    }
}
