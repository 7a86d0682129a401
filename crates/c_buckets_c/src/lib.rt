// The C functions of crate `c_buckets` as a static library: buckets, settings and amounts. Each calls that crate's function of the same
// name, by the same contract. `scripts/archive` writes the library to target/native/libc_buckets.a, by which name include/uglezmir.h has
// it.
#![tactic(auto)]

ghost use Rattle.c_buckets.specs.Amounts.{AmountExported};
ghost use Rattle.c_buckets.specs.Bytes.{ByteExported};
ghost use Rattle.c_buckets.specs.Discrete.{DiscreteExported};
ghost use Rattle.c_buckets.specs.Limits.{LimitExported};
ghost use Rattle.c_buckets.specs.Settings.{SettingsExported};

use c_buckets::{amounts, bytes, discrete, limits, settings};

#[unsafe(no_mangle)]
pub extern "C" fn uglezmir_amount(
    operation: u32,
    first: &[u32; 5],
    second: &[u32; 5],
    n: u64,
    m: u64,
    res: &mut [u32; 5],
    value: &mut u64,
) -> u32
    ensures { AmountExported operation first.now second.now n m res.old value.old result res.new value.new }
{
    amounts::uglezmir_amount(operation, first, second, n, m, res, value)
}

#[unsafe(no_mangle)]
pub extern "C" fn uglezmir_byte(
    operation: u32,
    longs: &mut [u64; 3],
    available: &mut [u32; 5],
    bytes: u64,
    now_ms: u64,
    value: &mut u64,
) -> u32
    ensures { ByteExported operation longs.old available.old bytes now_ms value.old result longs.new available.new value.new }
{
    bytes::uglezmir_byte(operation, longs, available, bytes, now_ms, value)
}

#[unsafe(no_mangle)]
pub extern "C" fn uglezmir_discrete(
    operation: u32,
    longs: &mut [u64; 2],
    shorts: &mut [u32; 2],
    now_ms: u64,
    value: &mut u64,
) -> u32
    ensures { DiscreteExported operation longs.old shorts.old now_ms value.old result longs.new shorts.new value.new }
{
    discrete::uglezmir_discrete(operation, longs, shorts, now_ms, value)
}

#[unsafe(no_mangle)]
pub extern "C" fn uglezmir_limit(operation: u32, words: &mut [u64; 2]) -> u32
    ensures { LimitExported operation words.old result words.new }
{
    limits::uglezmir_limit(operation, words)
}

#[unsafe(no_mangle)]
pub extern "C" fn uglezmir_settings(
    operation: u32,
    longs: &mut [u64; 6],
    shorts: &mut [u32; 3],
) -> u32
    ensures { SettingsExported operation longs.old shorts.old result longs.new shorts.new }
{
    settings::uglezmir_settings(operation, longs, shorts)
}
