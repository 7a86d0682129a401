// A row where it stands: its key, then four numbers of eight bytes.
ghost use Rattle.std.specs.Prelude.{◌≡◌, refl, ◌+◌, ◌≤◌, length};
ghost use Rattle.std.proofs.Common.{arith};
ghost use Rattle.lent_bytes.specs.LentBytes.{part};
ghost use Rattle.table.specs.Memory.{row_of};
ghost use Rattle.gossip_outbound_rows.specs.Rows.{key_width, row_width, entry_words, outbound_layout, outbound_sound};
ghost use Rattle.gossip_outbound_rows.specs.RowsLaws.{EntryFits, outbound_faithful};

use crate::entry;
use crate::entry::OutboundEntry;
use bucket_terms::limit::ByteRateLimitConfig;
use keyed_rows::kind::RowKind;
use lent_bytes::number::get_u64;

// The bytes of a row, and those of the key that it begins with.
pub const ROW_WIDTH: usize = 65;

pub(crate) const KEY_WIDTH: usize = 33;

// Where a row's numbers stand in it.
const SIGN_PLACE: usize = KEY_WIDTH;

const LOW_PLACE: usize = KEY_WIDTH + 8;

const HIGH_PLACE: usize = KEY_WIDTH + 16;

const LAST_REFILL_PLACE: usize = KEY_WIDTH + 24;

// The entry of the row at the place.
pub fn entry_at(table: &[u8], at: usize) -> OutboundEntry
    requires { at + row_width ≤ length table.now }
    ensures { result ≡ (row_of outbound_layout (part table.now at row_width)).entry }
{
    OutboundEntry {
        sign: get_u64(table, at + SIGN_PLACE),
        low: get_u64(table, at + LOW_PLACE),
        high: get_u64(table, at + HIGH_PLACE),
        last_refill_ms: get_u64(table, at + LAST_REFILL_PLACE),
    }
}

// The entry's four numbers, in the order of the row.
pub fn words_of(e: OutboundEntry) -> [u64; 4]
    ensures { result ≡ entry_words e }
{
    [e.sign, e.low, e.high, e.last_refill_ms]
}

// The rows of the outbound buckets as a kind of rows, whose entries are judged under the peers' settings.
#[derive(Clone, Copy)]
pub struct OutboundRows {
    pub config: ByteRateLimitConfig,
}

impl RowKind<4> for OutboundRows {
    type Entry = OutboundEntry;

    ghost WIDTH = { row_width };

    ghost KEY_WIDTH = { key_width };

    ghost layout = { outbound_layout };

    ghost Fits = { EntryFits };

    ghost sound = { λ kind r. outbound_sound kind.config r };

    const WIDTH: usize = ROW_WIDTH;

    const KEY_WIDTH: usize = KEY_WIDTH;

    fn words(entry: OutboundEntry) -> [u64; 4] {
        words_of(entry)
    }

    fn entry_at(table: &[u8], at: usize) -> OutboundEntry {
        entry_at(table, at)
    }

    fn is_sound_at(self, table: &[u8], at: usize) -> bool {
        entry::is_sound(self.config, entry_at(table, at))
    }

    ghost width_is = { refl };

    ghost key_width_is = { refl };

    ghost key_bound = { Prim.omega arith };

    ghost words_bound = { Prim.omega arith };

    ghost faithful = { outbound_faithful };
}
