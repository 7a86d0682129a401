// Amounts, under the numbers of the recorded lists: 0 from_u64, 1 is_negative, 2 is_below, 3 is_above, 4 lesser, 5 saturating_add,
// 6 saturating_sub, 7 deficit, 8 to_u64, 9 is_i128, 10 product_over 1,000, 11 times 1,000, 12 div_ceil_low.
ghost use Rattle.std.specs.Prelude.{◌≡◌};
ghost use Rattle.c_buckets.specs.Amounts.{amount_operation, quotient_reply, amount_done, AmountLeft, AmountExported};

use amount::Amount;
use c_terms::reply::Reply;
use c_terms::{amount_words, reply};
use refusal::Answered;
use token_bucket::bytes::ByteTokenBucket;

#[derive(Clone, Copy, Debug, PartialEq, Eq)]
pub enum AmountOperation {
    FromU64,
    IsNegative,
    IsBelow,
    IsAbove,
    Lesser,
    SaturatingAdd,
    SaturatingSub,
    Deficit,
    ToU64,
    IsI128,
    ProductPerThousand,
    TimesThousand,
    DivCeilLow,
    Unknown,
}

impl From<u32> for AmountOperation {
    ghost from_gives = { λ n o. o ≡ amount_operation n };

    fn from(n: u32) -> AmountOperation {
        match n {
            0 => AmountOperation::FromU64,
            1 => AmountOperation::IsNegative,
            2 => AmountOperation::IsBelow,
            3 => AmountOperation::IsAbove,
            4 => AmountOperation::Lesser,
            5 => AmountOperation::SaturatingAdd,
            6 => AmountOperation::SaturatingSub,
            7 => AmountOperation::Deficit,
            8 => AmountOperation::ToU64,
            9 => AmountOperation::IsI128,
            10 => AmountOperation::ProductPerThousand,
            11 => AmountOperation::TimesThousand,
            12 => AmountOperation::DivCeilLow,
            _ => AmountOperation::Unknown,
        }
    }
}

// The amount that a call answers, or its first operand where it answers no amount, and what the call said.
pub type AmountDone = Answered<Amount, Reply>;

// No number is divided by 0.
fn quotient(a: Amount, divisor: u64) -> Reply
    ensures { result ≡ quotient_reply a divisor }
{
    if divisor == 0 {
        Reply::plain(reply::UNKNOWN)
    } else {
        Reply::value(a.div_ceil_low(divisor))
    }
}

fn done(operation: AmountOperation, a: Amount, b: Amount, n: u64, m: u64) -> AmountDone
    ensures { result ≡ amount_done operation a b n m }
{
    match operation {
        AmountOperation::FromU64 => Answered {
            state: Amount::from_u64(n),
            answer: Reply::plain(reply::DONE),
        },
        AmountOperation::IsNegative => Answered {
            state: a,
            answer: a.is_negative().into(),
        },
        AmountOperation::IsBelow => Answered {
            state: a,
            answer: a.is_below(b).into(),
        },
        AmountOperation::IsAbove => Answered {
            state: a,
            answer: a.is_above(n).into(),
        },
        AmountOperation::Lesser => Answered {
            state: a.lesser(n),
            answer: Reply::plain(reply::DONE),
        },
        AmountOperation::SaturatingAdd => Answered {
            state: a.saturating_add(b),
            answer: Reply::plain(reply::DONE),
        },
        AmountOperation::SaturatingSub => Answered {
            state: a.saturating_sub(n),
            answer: Reply::plain(reply::DONE),
        },
        AmountOperation::Deficit => Answered {
            state: a.deficit(n),
            answer: Reply::plain(reply::DONE),
        },
        AmountOperation::ToU64 => Answered {
            state: a,
            answer: Reply::value(a.to_u64()),
        },
        AmountOperation::IsI128 => Answered {
            state: a,
            answer: a.is_i128().into(),
        },
        AmountOperation::ProductPerThousand => Answered {
            state: Amount::product_over(n, m, ByteTokenBucket::MS_PER_SEC),
            answer: Reply::plain(reply::DONE),
        },
        AmountOperation::TimesThousand => Answered {
            state: a.times(ByteTokenBucket::MS_PER_SEC),
            answer: Reply::plain(reply::DONE),
        },
        AmountOperation::DivCeilLow => Answered {
            state: a,
            answer: quotient(a, n),
        },
        AmountOperation::Unknown => Answered {
            state: a,
            answer: Reply::plain(reply::UNKNOWN),
        },
    }
}

// Kept: which words a state has is its own, so one function for all would be no shorter. On a refusal nothing is left.
fn leave(res: &mut [u32; 5], value: &mut u64, d: AmountDone) -> u32
    ensures { AmountLeft d res.old value.old result res.new value.new }
{
    if !d.answer.is_refusal() {
        *res = amount_words::words_of(d.state);
        *value = d.answer.value;
    }
    d.answer.number
}

#[unsafe(no_mangle)]
pub extern "C" fn uglezmir_amount(
    operation: u32,
    first: &[u32; 5],
    second: &[u32; 5],
    n: u64,
    m: u64,
    res: &mut [u32; 5],
    value: &mut u64,
) -> u32
    ensures { AmountExported operation first.now second.now n m res.old value.old result res.new value.new }
{
    let a = amount_words::amount_of(first);
    let b = amount_words::amount_of(second);
    let d = done(operation.into(), a, b, n, m);
    leave(res, value, d)
}
