// The bucket that counts messages: a token for each interval that passes, up to its capacity.
ghost use Rattle.std.specs.Prelude.{◌≡◌, cond, Ok, Err};
ghost use Rattle.refusal.specs.declared.Refusal.TheVariants as Refusal;
ghost use Rattle.bucket_discrete.specs.DiscreteBucket.{discrete_sound, discrete_new, discrete_refill, discrete_take};
ghost use Rattle.bucket_discrete.specs.DiscreteBucket.{DiscreteRefillMeets, DiscreteTryConsumeMeets, DiscreteIsFullMeets};

use bucket_terms::answer::NotGiven;
use refusal::{Answered, Refusal};

#[derive(Clone, Copy, Debug, PartialEq, Eq)]
pub struct DiscreteTokenBucket {
    pub interval_ms: u64,
    pub capacity: u32,
    pub available: u32,
    pub last_refill_ms: u64,
}

pub type DiscreteRefilled = Answered<DiscreteTokenBucket, Result<(), Refusal>>;

pub type DiscreteConsumed = Answered<DiscreteTokenBucket, Result<(), NotGiven>>;

impl DiscreteTokenBucket {
    // When a fresh bucket was last refilled.
    pub const FIRST_REFILL_MS: u64 = 0;

    // A full bucket.
    pub fn new(interval_ms: u64, capacity: u32) -> DiscreteTokenBucket
        ensures { result ≡ discrete_new interval_ms capacity }
    {
        DiscreteTokenBucket {
            interval_ms,
            capacity,
            available: capacity,
            last_refill_ms: DiscreteTokenBucket::FIRST_REFILL_MS,
        }
    }

    // The bucket at a time: a token more for each interval that has passed (the low 32 bits of their number), up to its capacity.
    #[tactic(auto, unfolding(crate::specs::DiscreteBucket::DiscreteRefillMeets))]
    pub fn refill(self, now_ms: u64) -> DiscreteRefilled
        ensures { DiscreteRefillMeets self now_ms result }
    {
        if let Err(refusal) = self.judged() {
            return Answered {
                state: self,
                answer: Err(refusal),
            };
        }
        Answered {
            state: self.refilled(now_ms),
            answer: Ok(()),
        }
    }

    // Takes one token if there is one. A no keeps the refill.
    #[tactic(auto, unfolding(crate::specs::DiscreteBucket::DiscreteTryConsumeMeets, crate::specs::DiscreteBucket::discrete_try_consume))]
    pub fn try_consume(self, now_ms: u64) -> DiscreteConsumed
        ensures { DiscreteTryConsumeMeets self now_ms result }
    {
        if let Err(refusal) = self.judged() {
            return Answered {
                state: self,
                answer: Err(refusal.into()),
            };
        }
        self.refilled(now_ms).take()
    }

    // Whether no token is missing.
    #[tactic(auto, unfolding(crate::specs::DiscreteBucket::DiscreteIsFullMeets))]
    pub fn is_full(self) -> Result<bool, Refusal>
        ensures { DiscreteIsFullMeets self result }
    {
        self.judged()?;
        Ok(self.available == self.capacity)
    }

    fn judged(self) -> Result<(), Refusal>
        ensures { result ≡ cond (discrete_sound self) (Ok tt) (Err Refusal.Unsound) }
    {
        if self.available > self.capacity {
            return Err(Refusal::Unsound);
        }
        Ok(())
    }

    #[tactic(auto, unfolding(crate::specs::DiscreteBucket::discrete_refill))]
    fn refilled(self, now_ms: u64) -> DiscreteTokenBucket
        ensures { result ≡ discrete_refill self now_ms }
    {
        if self.interval_ms == 0 || self.capacity == 0 || now_ms <= self.last_refill_ms {
            return self;
        }
        let refill = (now_ms - self.last_refill_ms) / self.interval_ms % 0x1_0000_0000;
        if refill == 0 {
            return self;
        }
        DiscreteTokenBucket {
            available: self
                .available
                .saturating_add(refill as u32)
                .min(self.capacity),
            last_refill_ms: self.last_refill_ms + refill * self.interval_ms,
            ..self
        }
    }

    #[tactic(auto, unfolding(crate::specs::DiscreteBucket::discrete_take))]
    fn take(self) -> DiscreteConsumed
        ensures { result ≡ discrete_take self }
    {
        match self.available.checked_sub(1) {
            Some(available) => Answered {
                state: DiscreteTokenBucket { available, ..self },
                answer: Ok(()),
            },
            None => Answered {
                state: self,
                answer: Err(NotGiven::Short(1)),
            },
        }
    }
}
