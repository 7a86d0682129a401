// A peer's row where it stands: its key, then eleven numbers of eight bytes. Its entry is read whole, or just the numbers that are
// judged.
ghost use Rattle.std.specs.Prelude.{◌≡◌, refl, ◌+◌, ◌*◌, ◌≤◌, length};
ghost use Rattle.std.proofs.Common.{arith};
ghost use Rattle.lent_bytes.specs.LentBytes.{part, le};
ghost use Rattle.peer_state.specs.Entry.{level, window, ban, ban_sound};
ghost use Rattle.peer_rows.specs.Rows.{key_width, row_width, entry_words, peer_layout, row_from, peer_sound};
ghost use Rattle.peer_rows.specs.RowsLaws.{EntryFits, peer_faithful};
ghost use Rattle.peer_rows.specs.Private.{entry_at};

use keyed_rows::kind::RowKind;
use lent_bytes::number::get_u64;
use peer_settings::config::PeerMessagePolicyConfig;
use peer_state::entry::{Ban, Level, PeerMessagePolicyEntry, ViolationWindow};
use pubkey::PUBKEY_SIZE;

// The bytes of a row, and those of the key that it begins with.
pub const ROW_WIDTH: usize = 121;

pub const KEY_WIDTH: usize = PUBKEY_SIZE;

// Where a row's levels, windows, ban and last use stand in it. All but the last are two numbers.
const MESSAGES_PLACE: usize = KEY_WIDTH;

const BYTES_PLACE: usize = KEY_WIDTH + 16;

const VIOLATIONS_PLACE: usize = KEY_WIDTH + 32;

const INVALID_PLACE: usize = KEY_WIDTH + 48;

pub const BAN_PLACE: usize = KEY_WIDTH + 64;

pub const LAST_USED_PLACE: usize = KEY_WIDTH + 80;

// What a bucket holds, read at the place.
fn level_at(table: &[u8], at: usize) -> Level
    requires { at + 16 ≤ length table.now }
    ensures { result ≡ level (le (part table.now at 8)) (le (part table.now (at + 8) 8)) }
{
    Level {
        available: get_u64(table, at),
        last_refill_ms: get_u64(table, at + 8),
    }
}

// A violation window, read at the place.
fn window_at(table: &[u8], at: usize) -> ViolationWindow
    requires { at + 16 ≤ length table.now }
    ensures { result ≡ window (le (part table.now at 8)) (le (part table.now (at + 8) 8)) }
{
    ViolationWindow {
        count: get_u64(table, at),
        started_at_ms: get_u64(table, at + 8),
    }
}

// A ban, read at the place.
fn ban_at(table: &[u8], at: usize) -> Ban
    requires { at + 16 ≤ length table.now }
    ensures { result ≡ ban (le (part table.now at 8)) (le (part table.now (at + 8) 8)) }
{
    Ban {
        mark: get_u64(table, at),
        until_ms: get_u64(table, at + 8),
    }
}

// The entry of the row at the place.
fn entry_from(table: &[u8], at: usize) -> PeerMessagePolicyEntry
    requires { at + row_width ≤ length table.now }
    ensures { result ≡ (row_from table.now at).entry }
{
    PeerMessagePolicyEntry {
        messages: level_at(table, at + MESSAGES_PLACE),
        bytes: level_at(table, at + BYTES_PLACE),
        rate_limit_violations: window_at(table, at + VIOLATIONS_PLACE),
        invalid_messages: window_at(table, at + INVALID_PLACE),
        ban: ban_at(table, at + BAN_PLACE),
        last_used_ms: get_u64(table, at + LAST_USED_PLACE),
    }
}

// The entry of the row at the index.
pub fn entry_at(table: &[u8], index: usize) -> PeerMessagePolicyEntry
    requires { row_width * (index + 1) ≤ length table.now }
    ensures { result ≡ entry_at table.now index }
{
    entry_from(table, ROW_WIDTH * index)
}

// The entry's eleven numbers, in the order of the row.
#[tactic(auto, unfolding(crate::specs::Rows::entry_words))]
pub fn words_of(e: PeerMessagePolicyEntry) -> [u64; 11]
    ensures { result ≡ entry_words e }
{
    [
        e.messages.available,
        e.messages.last_refill_ms,
        e.bytes.available,
        e.bytes.last_refill_ms,
        e.rate_limit_violations.count,
        e.rate_limit_violations.started_at_ms,
        e.invalid_messages.count,
        e.invalid_messages.started_at_ms,
        e.ban.mark,
        e.ban.until_ms,
        e.last_used_ms,
    ]
}

// Whether the ban at the place keeps its rules: a mark of 0 or 1, and no end without a ban.
fn ban_sound(table: &[u8], at: usize) -> bool
    requires { at + 16 ≤ length table.now }
    ensures { result ≡ ban_sound (ban (le (part table.now at 8)) (le (part table.now (at + 8) 8))) }
{
    let mark = get_u64(table, at);
    mark == 1 || (mark == 0 && get_u64(table, at + 8) == 0)
}

// Whether the entry of the row at the place keeps its rules. It reads the six numbers that are judged and no other.
fn row_sound(config: PeerMessagePolicyConfig, table: &[u8], at: usize) -> bool
    requires { at + row_width ≤ length table.now }
    ensures { result ≡ peer_sound config (row_from table.now at) }
{
    if get_u64(table, at + MESSAGES_PLACE) > config.peer_message_burst as u64
        || get_u64(table, at + BYTES_PLACE) > config.peer_message_burst_bytes
    {
        return false;
    }
    // Both counts are read before either is judged, so that LLVM joins the tests: one `or` of the high halves, one branch.
    let violations = get_u64(table, at + VIOLATIONS_PLACE);
    let invalid = get_u64(table, at + INVALID_PLACE);
    if violations > 0xffff_ffff || invalid > 0xffff_ffff {
        return false;
    }
    ban_sound(table, at + BAN_PLACE)
}

// The peers' rows as a kind of rows, whose entries are judged under a configuration.
#[derive(Clone, Copy)]
pub struct PeerRows {
    pub config: PeerMessagePolicyConfig,
}

impl RowKind<11> for PeerRows {
    type Entry = PeerMessagePolicyEntry;

    ghost WIDTH = { row_width };

    ghost KEY_WIDTH = { key_width };

    ghost layout = { peer_layout };

    ghost Fits = { EntryFits };

    ghost sound = { λ kind r. peer_sound kind.config r };

    const WIDTH: usize = ROW_WIDTH;

    const KEY_WIDTH: usize = KEY_WIDTH;

    #[tactic(auto, unfolding(crate::specs::Rows::entry_words))]
    fn words(entry: PeerMessagePolicyEntry) -> [u64; 11] {
        words_of(entry)
    }

    fn entry_at(table: &[u8], at: usize) -> PeerMessagePolicyEntry {
        entry_from(table, at)
    }

    fn is_sound_at(self, table: &[u8], at: usize) -> bool {
        row_sound(self.config, table, at)
    }

    ghost width_is = { refl };

    ghost key_width_is = { refl };

    ghost key_bound = { Prim.omega arith };

    ghost words_bound = { Prim.omega arith };

    ghost faithful = { peer_faithful };
}
