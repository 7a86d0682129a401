// A row where it stands: its key, then four numbers of eight bytes.
ghost use Rattle.std.specs.Prelude.{◌≡◌, refl, ◌+◌, ◌≤◌, length};
ghost use Rattle.std.proofs.Common.{arith};
ghost use Rattle.lent_bytes.specs.LentBytes.{part};
ghost use Rattle.table.specs.Memory.{row_of};
ghost use Rattle.gossip_ban_rows.specs.Rows.{key_width, row_width, entry_words, ban_layout, ban_sound};
ghost use Rattle.gossip_ban_rows.specs.RowsLaws.{EntryFits, ban_faithful};

use crate::entry::GossipBanEntry;
use keyed_rows::kind::RowKind;
use lent_bytes::number::get_u64;

// The bytes of a row, and those of the key that it begins with.
pub const ROW_WIDTH: usize = 65;

pub(crate) const KEY_WIDTH: usize = 33;

// Where a row's numbers stand in it.
const SCORE_PLACE: usize = KEY_WIDTH;

const MARK_PLACE: usize = KEY_WIDTH + 8;

const UNTIL_PLACE: usize = KEY_WIDTH + 16;

const LAST_UPDATED_PLACE: usize = KEY_WIDTH + 24;

// The entry of the row at the place.
pub fn entry_at(table: &[u8], at: usize) -> GossipBanEntry
    requires { at + row_width ≤ length table.now }
    ensures { result ≡ (row_of ban_layout (part table.now at row_width)).entry }
{
    GossipBanEntry {
        score: get_u64(table, at + SCORE_PLACE),
        mark: get_u64(table, at + MARK_PLACE),
        until_ms: get_u64(table, at + UNTIL_PLACE),
        last_updated_ms: get_u64(table, at + LAST_UPDATED_PLACE),
    }
}

// The entry's four numbers, in the order of the row.
pub fn words_of(e: GossipBanEntry) -> [u64; 4]
    ensures { result ≡ entry_words e }
{
    [e.score, e.mark, e.until_ms, e.last_updated_ms]
}

// The rows of the gossip bans as a kind of rows.
#[derive(Clone, Copy)]
pub struct BanRows;

impl RowKind<4> for BanRows {
    type Entry = GossipBanEntry;

    ghost WIDTH = { row_width };

    ghost KEY_WIDTH = { key_width };

    ghost layout = { ban_layout };

    ghost Fits = { EntryFits };

    ghost sound = { λ _ r. ban_sound r };

    const WIDTH: usize = ROW_WIDTH;

    const KEY_WIDTH: usize = KEY_WIDTH;

    fn words(entry: GossipBanEntry) -> [u64; 4] {
        words_of(entry)
    }

    fn entry_at(table: &[u8], at: usize) -> GossipBanEntry {
        entry_at(table, at)
    }

    fn is_sound_at(self, table: &[u8], at: usize) -> bool {
        entry_at(table, at).is_sound()
    }

    ghost width_is = { refl };

    ghost key_width_is = { refl };

    ghost key_bound = { Prim.omega arith };

    ghost words_bound = { Prim.omega arith };

    ghost faithful = { ban_faithful };
}
