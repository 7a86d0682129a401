// The bucket that counts bytes: refilled at a rate, up to its burst, and able to go into debt.
ghost use Rattle.std.specs.Prelude.{◌≡◌, ◌<◌, cond, Ok, Err};
ghost use Rattle.refusal.specs.declared.Refusal.TheVariants as Refusal;
ghost use Rattle.bucket_terms.specs.Limit.{byte_disabled};
ghost use Rattle.bucket_bytes.specs.ByteBucket.{byte_sound, byte_new, byte_refill, byte_taken, byte_take, byte_peek_delay, byte_promised, byte_given_back};
ghost use Rattle.bucket_bytes.specs.ByteBucket.{ByteRefillMeets, ByteTryConsumeMeets, ByteReserveMeets, BytePeekDelayMeets, ByteRefundMeets, ByteHasDebtMeets};

use amount::Amount;
use bucket_terms::answer::NotGiven;
use bucket_terms::limit::ByteRateLimitConfig;
use refusal::{Answered, Refusal};

#[derive(Clone, Copy, Debug, PartialEq, Eq)]
pub struct ByteTokenBucket {
    pub config: ByteRateLimitConfig,
    pub available_bytes: Amount,
    pub last_refill_ms: u64,
}

pub type ByteRefilled = Answered<ByteTokenBucket, Result<(), Refusal>>;

pub type ByteConsumed = Answered<ByteTokenBucket, Result<(), NotGiven>>;

pub type ByteReserved = Answered<ByteTokenBucket, Result<u64, Refusal>>;

impl ByteTokenBucket {
    // When a fresh bucket was last refilled.
    pub const FIRST_REFILL_MS: u64 = 0;

    // Times are milliseconds, and the rate counts bytes in a second.
    pub const MS_PER_SEC: u32 = 1_000;

    // A full bucket.
    pub fn new(config: ByteRateLimitConfig) -> ByteTokenBucket
        ensures { result ≡ byte_new config }
    {
        ByteTokenBucket {
            config,
            available_bytes: Amount::from_u64(config.burst_bytes),
            last_refill_ms: ByteTokenBucket::FIRST_REFILL_MS,
        }
    }

    // The bucket at a time: what the rate gives for the time that has passed, up to its burst.
    #[tactic(auto, unfolding(crate::specs::ByteBucket::ByteRefillMeets))]
    pub fn refill(self, now_ms: u64) -> ByteRefilled
        ensures { ByteRefillMeets self now_ms result }
    {
        if let Err(refusal) = self.judged() {
            return Answered {
                state: self,
                answer: Err(refusal),
            };
        }
        Answered {
            state: self.refilled(now_ms),
            answer: Ok(()),
        }
    }

    // Takes the bytes if they are there. A no keeps the refill and says how many were missing, at most 2^64 - 1.
    #[tactic(auto, unfolding(crate::specs::ByteBucket::ByteTryConsumeMeets, crate::specs::ByteBucket::byte_try_consume))]
    pub fn try_consume(self, bytes: u64, now_ms: u64) -> ByteConsumed
        ensures { ByteTryConsumeMeets self bytes now_ms result }
    {
        if let Err(refusal) = self.judged() {
            return Answered {
                state: self,
                answer: Err(refusal.into()),
            };
        }
        if self.is_disabled() {
            return Answered {
                state: self,
                answer: Ok(()),
            };
        }
        self.refilled(now_ms).take(bytes)
    }

    // Takes the bytes in any case, into debt where need be, and says how long the sender must wait.
    #[tactic(auto, unfolding(crate::specs::ByteBucket::ByteReserveMeets, crate::specs::ByteBucket::byte_reserve))]
    pub fn reserve(self, bytes: u64, now_ms: u64) -> ByteReserved
        ensures { ByteReserveMeets self bytes now_ms result }
    {
        if let Err(refusal) = self.judged() {
            return Answered {
                state: self,
                answer: Err(refusal),
            };
        }
        if self.is_disabled() {
            return Answered {
                state: self,
                answer: Ok(0),
            };
        }
        self.refilled(now_ms).promised(bytes)
    }

    // How long a sender of these bytes would have to wait. Nothing changes.
    #[tactic(auto, unfolding(crate::specs::ByteBucket::BytePeekDelayMeets, crate::specs::ByteBucket::byte_peek_delay_after_refill))]
    pub fn peek_delay_after_refill(self, bytes: u64, now_ms: u64) -> Result<u64, Refusal>
        ensures { BytePeekDelayMeets self bytes now_ms result }
    {
        self.judged()?;
        if self.is_disabled() {
            return Ok(0);
        }
        Ok(self.refilled(now_ms).peek_delay(bytes))
    }

    // Gives bytes back that were not sent after all.
    #[tactic(auto, unfolding(crate::specs::ByteBucket::ByteRefundMeets, crate::specs::ByteBucket::byte_refund))]
    pub fn refund(self, bytes: u64, now_ms: u64) -> ByteRefilled
        ensures { ByteRefundMeets self bytes now_ms result }
    {
        if let Err(refusal) = self.judged() {
            return Answered {
                state: self,
                answer: Err(refusal),
            };
        }
        if self.is_disabled() {
            return Answered {
                state: self,
                answer: Ok(()),
            };
        }
        Answered {
            state: self.refilled(now_ms).given_back(bytes),
            answer: Ok(()),
        }
    }

    // Whether more was promised than the rate has given since. Nothing changes.
    #[tactic(auto, unfolding(crate::specs::ByteBucket::ByteHasDebtMeets, crate::specs::ByteBucket::byte_has_debt))]
    pub fn has_debt(self, now_ms: u64) -> Result<bool, Refusal>
        ensures { ByteHasDebtMeets self now_ms result }
    {
        self.judged()?;
        Ok(!self.is_disabled() && self.refilled(now_ms).available_bytes.is_negative())
    }

    pub fn burst_bytes(self) -> u64
        ensures { result ≡ self.config.burst_bytes }
    {
        self.config.burst_bytes
    }

    pub fn is_disabled(self) -> bool
        ensures { result ≡ byte_disabled self.config }
    {
        self.config.is_disabled()
    }

    fn judged(self) -> Result<(), Refusal>
        ensures { result ≡ cond (byte_sound self) (Ok tt) (Err Refusal.Unsound) }
    {
        if !is_sound(self) {
            return Err(Refusal::Unsound);
        }
        Ok(())
    }

    #[tactic(auto, unfolding(crate::specs::ByteBucket::byte_refill))]
    fn refilled(self, now_ms: u64) -> ByteTokenBucket
        ensures { result ≡ byte_refill self now_ms }
    {
        if self.is_disabled() || now_ms <= self.last_refill_ms {
            return self;
        }
        let gain = Amount::product_over(
            now_ms - self.last_refill_ms,
            self.config.rate_bytes_per_sec,
            ByteTokenBucket::MS_PER_SEC,
        );
        let sum = self.available_bytes.saturating_add(gain);
        ByteTokenBucket {
            available_bytes: sum.lesser(self.config.burst_bytes),
            last_refill_ms: now_ms,
            ..self
        }
    }

    fn taken(self, bytes: u64) -> ByteTokenBucket
        ensures { result ≡ byte_taken self bytes }
    {
        ByteTokenBucket {
            available_bytes: self.available_bytes.saturating_sub(bytes),
            ..self
        }
    }

    #[tactic(auto, unfolding(crate::specs::ByteBucket::byte_take))]
    fn take(self, bytes: u64) -> ByteConsumed
        ensures { result ≡ byte_take self bytes }
    {
        if self.available_bytes.is_below(Amount::from_u64(bytes)) {
            return Answered {
                state: self,
                answer: Err(NotGiven::Short(self.available_bytes.deficit(bytes).to_u64())),
            };
        }
        Answered {
            state: self.taken(bytes),
            answer: Ok(()),
        }
    }

    fn peek_delay(self, bytes: u64) -> u64
        requires { 0 < self.config.rate_bytes_per_sec }
        ensures { result ≡ byte_peek_delay self bytes }
    {
        let deficit = self.available_bytes.deficit(bytes);
        if !deficit.is_above(0) {
            return 0;
        }
        deficit
            .times(ByteTokenBucket::MS_PER_SEC)
            .div_ceil_low(self.config.rate_bytes_per_sec)
    }

    fn promised(self, bytes: u64) -> ByteReserved
        requires { 0 < self.config.rate_bytes_per_sec }
        ensures { result ≡ byte_promised self bytes }
    {
        Answered {
            state: self.taken(bytes),
            answer: Ok(self.peek_delay(bytes)),
        }
    }

    fn given_back(self, bytes: u64) -> ByteTokenBucket
        ensures { result ≡ byte_given_back self bytes }
    {
        ByteTokenBucket {
            available_bytes: self
                .available_bytes
                .saturating_add(Amount::from_u64(bytes))
                .lesser(self.config.burst_bytes),
            ..self
        }
    }
}

// The rules of a bucket: an i128, no minus zero, and never above the burst. Public for crates that keep buckets of their own.
// Kept: a free function, since it is public, and callers name it by this path.
#[tactic(auto, unfolding(crate::specs::ByteBucket::byte_sound))]
pub fn is_sound(b: ByteTokenBucket) -> bool
    ensures { result ≡ byte_sound b }
{
    b.available_bytes.is_i128() && !b.available_bytes.is_above(b.config.burst_bytes)
}
