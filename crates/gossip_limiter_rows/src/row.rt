// A row where it stands: its key, then three numbers of eight bytes.
ghost use Rattle.std.specs.Prelude.{◌≡◌, refl, ◌+◌, ◌≤◌, length};
ghost use Rattle.std.proofs.Common.{arith};
ghost use Rattle.lent_bytes.specs.LentBytes.{part};
ghost use Rattle.table.specs.Memory.{row_of};
ghost use Rattle.gossip_limiter_rows.specs.Rows.{key_width, row_width, entry_words, limiter_layout, limiter_sound};
ghost use Rattle.gossip_limiter_rows.specs.RowsLaws.{EntryFits, limiter_faithful};

use crate::entry::ChannelUpdateLimiterEntry;
use gossip_settings::channel_update::ChannelUpdateRateLimitConfig;
use keyed_rows::kind::RowKind;
use lent_bytes::number::get_u64;

// The bytes of a row, and those of the key that it begins with.
pub const ROW_WIDTH: usize = 94;

pub(crate) const KEY_WIDTH: usize = 70;

// Where the key's side and the row's numbers stand in it.
const SIDE_PLACE: usize = KEY_WIDTH - 1;

const AVAILABLE_PLACE: usize = KEY_WIDTH;

const LAST_REFILL_PLACE: usize = KEY_WIDTH + 8;

const LAST_USED_PLACE: usize = KEY_WIDTH + 16;

// The entry of the row at the place.
pub fn entry_at(table: &[u8], at: usize) -> ChannelUpdateLimiterEntry
    requires { at + row_width ≤ length table.now }
    ensures { result ≡ (row_of limiter_layout (part table.now at row_width)).entry }
{
    ChannelUpdateLimiterEntry {
        available: get_u64(table, at + AVAILABLE_PLACE),
        last_refill_ms: get_u64(table, at + LAST_REFILL_PLACE),
        last_used_ms: get_u64(table, at + LAST_USED_PLACE),
    }
}

// Whether the row at the place keeps its rule: no more available than the burst, and a side of 0 or 1.
pub fn is_sound_at(table: &[u8], at: usize, config: ChannelUpdateRateLimitConfig) -> bool
    requires { at + row_width ≤ length table.now }
    ensures { result ≡ limiter_sound config (row_of limiter_layout (part table.now at row_width)) }
{
    entry_at(table, at).available <= config.burst as u64 && table[at + SIDE_PLACE] <= 1
}

// The entry's three numbers, in the order of the row.
pub fn words_of(e: ChannelUpdateLimiterEntry) -> [u64; 3]
    ensures { result ≡ entry_words e }
{
    [e.available, e.last_refill_ms, e.last_used_ms]
}

// The limiter's rows as a kind of rows, whose entries are judged under the limiter's settings.
#[derive(Clone, Copy)]
pub struct LimiterRows {
    pub config: ChannelUpdateRateLimitConfig,
}

impl RowKind<3> for LimiterRows {
    type Entry = ChannelUpdateLimiterEntry;

    ghost WIDTH = { row_width };

    ghost KEY_WIDTH = { key_width };

    ghost layout = { limiter_layout };

    ghost Fits = { EntryFits };

    ghost sound = { λ kind r. limiter_sound kind.config r };

    const WIDTH: usize = ROW_WIDTH;

    const KEY_WIDTH: usize = KEY_WIDTH;

    fn words(entry: ChannelUpdateLimiterEntry) -> [u64; 3] {
        words_of(entry)
    }

    fn entry_at(table: &[u8], at: usize) -> ChannelUpdateLimiterEntry {
        entry_at(table, at)
    }

    fn is_sound_at(self, table: &[u8], at: usize) -> bool {
        is_sound_at(table, at, self.config)
    }

    ghost width_is = { refl };

    ghost key_width_is = { refl };

    ghost key_bound = { Prim.omega arith };

    ghost words_bound = { Prim.omega arith };

    ghost faithful = { limiter_faithful };
}
