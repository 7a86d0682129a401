// The limiter by value: how one is made, and its calls. try_acquire judges and finds; what follows is in `calls`.
ghost use Rattle.gossip_settings.specs.Settings.{max_tracked_keys};
ghost use Rattle.gossip_limiter.specs.Calls.{MadeMeets, TryAcquireMeets, TrackedKeysMeets};

use super::answer::LimiterTold;
use gossip_limiter_rows::row::ROW_WIDTH;
use gossip_settings::channel_update::ChannelUpdateRateLimitConfig;
use pubkey::ChannelUpdateLimiterKey;
use refusal::{Answered, Refusal};
use table::seek::Seek;

// Settings, how many keys have a bucket at most (the limit as it was given; 0 counts as 1), and how many rows of the lent memory are
// in use.
#[derive(Clone, Copy, Debug, PartialEq, Eq)]
pub struct ChannelUpdateLimiter {
    pub config: ChannelUpdateRateLimitConfig,
    pub max_entries: u64,
    pub rows: u64,
}

impl ChannelUpdateLimiter {
    // A limiter of 1,024 keys.
    pub fn new(
        config: ChannelUpdateRateLimitConfig,
        table: &mut [u8],
    ) -> Result<ChannelUpdateLimiter, Refusal>
        ensures { MadeMeets config max_tracked_keys table.old result table.new }
    {
        ChannelUpdateLimiter::with_max_entries(
            config,
            ChannelUpdateRateLimitConfig::MAX_TRACKED_KEYS,
            table,
        )
    }

    // A limiter without a bucket. Every row of the limit is zeroed. Refused with 2 where the limit is above 1,024, then with 1 where
    // the table is too short for it.
    pub fn with_max_entries(
        config: ChannelUpdateRateLimitConfig,
        max_entries: u64,
        table: &mut [u8],
    ) -> Result<ChannelUpdateLimiter, Refusal>
        ensures { MadeMeets config max_entries table.old result table.new }
    {
        if max_entries > ChannelUpdateRateLimitConfig::MAX_TRACKED_KEYS {
            return Err(Refusal::LimitTooLarge);
        }
        let limit = max_entries.max(1);
        if ((table.len() / ROW_WIDTH) as u64) < limit {
            return Err(Refusal::TooShort);
        }
        table::rows::zero_rows(table, ROW_WIDTH, 0, limit as usize);
        Ok(ChannelUpdateLimiter {
            config,
            max_entries,
            rows: 0,
        })
    }

    // Whether an update is let in: takes a token of the key's bucket. A key without one gets a fresh bucket, unless the table is full
    // of keys that have used theirs.
    pub fn try_acquire(
        self,
        table: &mut [u8],
        key: ChannelUpdateLimiterKey,
        now_ms: u64,
    ) -> LimiterTold
        ensures { TryAcquireMeets self table.old key now_ms result table.new }
    {
        match self.sought(table, key) {
            Seek::Unsound => Answered {
                state: self,
                answer: Err(Refusal::Unsound),
            },
            Seek::At(index) => self.acquire_known(table, key, index, now_ms),
            Seek::Gap(gap) => self.acquire_new(table, key, gap, now_ms),
        }
    }

    // How many keys have a bucket, full ones counted. No table is lent, so the record alone is judged.
    pub fn tracked_keys(self) -> Result<u64, Refusal>
        ensures { TrackedKeysMeets self result }
    {
        if !self.is_sound() {
            return Err(Refusal::Unsound);
        }
        Ok(self.rows)
    }
}

// ChannelUpdateRateLimitConfig::build_limiter
pub fn build_limiter(
    config: ChannelUpdateRateLimitConfig,
    table: &mut [u8],
) -> Result<ChannelUpdateLimiter, Refusal>
    ensures { MadeMeets config max_tracked_keys table.old result table.new }
{
    ChannelUpdateLimiter::new(config, table)
}

// ChannelUpdateRateLimitConfig::build_limiter_with_max_entries
pub fn build_limiter_with_max_entries(
    config: ChannelUpdateRateLimitConfig,
    max_entries: u64,
    table: &mut [u8],
) -> Result<ChannelUpdateLimiter, Refusal>
    ensures { MadeMeets config max_entries table.old result table.new }
{
    ChannelUpdateLimiter::with_max_entries(config, max_entries, table)
}
