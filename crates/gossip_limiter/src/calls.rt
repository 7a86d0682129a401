// What try_acquire does once the limiter is judged and the key is found, or its place: decide, then write.
ghost use Rattle.std.specs.Prelude.{◌≡◌};
ghost use Rattle.pubkey.specs.Order.{limiter_key_bytes};
ghost use Rattle.gossip_limiter.specs.Calls.{limiter_with, TryAcquireMeets};
ghost use Rattle.gossip_limiter.specs.Private.{Known, Unknown};

use super::answer::LimiterTold;
use super::limiter::ChannelUpdateLimiter;
use bucket_discrete::discrete::DiscreteTokenBucket;
use gossip_limiter_rows::row::{ROW_WIDTH, entry_at};
use gossip_limiter_rows::{entry, place, prune};
use pubkey::ChannelUpdateLimiterKey;
use refusal::Answered;

impl ChannelUpdateLimiter {
    // The limiter with so many rows.
    fn with_rows(self, rows: u64) -> ChannelUpdateLimiter
        ensures { result ≡ limiter_with self rows }
    {
        ChannelUpdateLimiter { rows, ..self }
    }

    // A key that has a row: its bucket is asked, and no row goes. The key is named for the contract: it stands in the row already.
    pub(crate) fn acquire_known(
        self,
        table: &mut [u8],
        key: ChannelUpdateLimiterKey,
        index: usize,
        now_ms: u64,
    ) -> LimiterTold
        requires { Known self table.old (limiter_key_bytes key) index }
        ensures { TryAcquireMeets self table.old key now_ms result table.new }
    {
        if self.config.is_disabled() {
            return Answered {
                state: self,
                answer: Ok(true),
            };
        }
        let found = entry_at(table, ROW_WIDTH * index);
        let bucket = entry::bucket_of(self.config, found);
        let asked = entry::ask(bucket, now_ms);
        place::overwrite_at(table, self.rows as usize, index, asked.entry);
        Answered {
            state: self,
            answer: asked.answer,
        }
    }

    // A key that has none: idle rows go where the table is full, and it gets a fresh bucket if there is then room.
    pub(crate) fn acquire_new(
        self,
        table: &mut [u8],
        key: ChannelUpdateLimiterKey,
        gap: usize,
        now_ms: u64,
    ) -> LimiterTold
        requires { Unknown self table.old (limiter_key_bytes key) gap }
        ensures { TryAcquireMeets self table.old key now_ms result table.new }
    {
        let config = self.config;
        if config.is_disabled() {
            return Answered {
                state: self,
                answer: Ok(true),
            };
        }
        let limit = self.limit();
        let left = prune::make_room(table, self.rows as usize, limit, config, now_ms);
        if limit <= left as u64 {
            return Answered {
                state: self.with_rows(left as u64),
                answer: Ok(false),
            };
        }
        let bucket = DiscreteTokenBucket::new(config.interval_ms, config.burst);
        let asked = entry::ask(bucket, now_ms);
        let rows = place::store(table, left, key, asked.entry);
        Answered {
            state: self.with_rows(rows as u64),
            answer: asked.answer,
        }
    }
}
