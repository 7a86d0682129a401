// A number that stands for words and bytes: two runs of them that differ in one alone never have the same. The recorder reckons in the
// same way (oracle/checks/src/lists).
ghost use Rattle.std.specs.Prelude.{◌≡◌};
ghost use Rattle.replay.specs.Checksum.{added, word_added, all_added, Filled};

use super::record::{high_half, low_half};

// A prime, the largest below 2^55, so that the product in `add` fits.
const MODULUS: u64 = 0x7f_ffff_ffff_ffc9;

const FACTOR: u64 = 257;

pub fn add(sum: u64, n: u32) -> u64
    ensures { result ≡ added sum n }
{
    (sum % MODULUS * FACTOR + n as u64 + 1) % MODULUS
}

// The word's low half, then its high one.
pub fn add_word(sum: u64, n: u64) -> u64
    ensures { result ≡ word_added sum n }
{
    add(add(sum, low_half(n)), high_half(n))
}

// Every byte, the first one first.
pub fn add_bytes(sum: u64, bytes: &[u8]) -> u64
    ensures { result ≡ all_added sum bytes.now }
{
    let mut all = sum;
    for &b in bytes {
        all = add(all, u32::from(b));
    }
    all
}

// Fills a memory with bytes that look like anything, from a seed, and answers the seed for the bytes that come next.
pub fn fill(memory: &mut [u8], seed: u64) -> u64
    ensures { Filled memory.old seed result memory.new }
{
    let mut sum = seed;
    for i in 0..memory.len() {
        sum = add(sum, 7);
        memory[i] = (sum % 256) as u8;
    }
    sum
}
