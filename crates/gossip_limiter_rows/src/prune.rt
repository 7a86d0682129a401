// Idle rows taken out: each row is refilled, and those whose bucket is then full go.
ghost use Rattle.std.specs.Prelude.{◌≡◌, true, ◌++◌, ◌+◌, ◌*◌, ◌≤◌, length};
ghost use Rattle.lent_bytes.specs.LentBytes.{part, put};
ghost use Rattle.table.specs.Table.{every};
ghost use Rattle.table.specs.Memory.{word_bytes, rows};
ghost use Rattle.table_laws.specs.Walk.{row_at};
ghost use Rattle.table_laws.specs.Private.{Counted, Gathered, RewritingStep};
ghost use Rattle.gossip_limiter_rows.specs.Entry.{refilled as refilledBy};
ghost use Rattle.gossip_limiter_rows.specs.Rows.{key_width, row_width, entry_words, limiter_layout, limiter_sound};
ghost use Rattle.gossip_limiter_rows.specs.Prune.{not_full, prune_idle, room_for};

use crate::entry;
use crate::entry::ChannelUpdateLimiterEntry;
use crate::row::{KEY_WIDTH, ROW_WIDTH, entry_at, words_of};
use gossip_settings::channel_update::ChannelUpdateRateLimitConfig;

// Kept: not `keyed_rows::kind::retain`, since each entry is rewritten on the way, which no other table does.

// Moves the row at the index `from` down to `to`, with another entry.
fn move_with(table: &mut [u8], from: usize, to: usize, e: ChannelUpdateLimiterEntry)
    requires to_le_from { to ≤ from }
    requires from_in_bounds { row_width * (from + 1) ≤ length table.old }
    ensures { table.new ≡ put table.old (row_width * to) (part table.old (row_width * from) key_width ++ word_bytes (entry_words e)) }
{
    let words = words_of(e);
    table::rows::keep_row(table, ROW_WIDTH, from, to);
    table::rows::put_words(table, ROW_WIDTH * to + KEY_WIDTH, &words);
}

// One step of the walk that keeps rows: the row at the index `from` is refilled and moves down to `to`, unless its bucket is then
// full. Answers where the next one goes.
fn keep_busy(
    table: &mut [u8],
    from: usize,
    to: usize,
    config: ChannelUpdateRateLimitConfig,
    now_ms: u64,
) -> usize
    requires to_le_from { to ≤ from }
    requires from_in_bounds { row_width * (from + 1) ≤ length table.old }
    requires from_value { limiter_sound config (row_at limiter_layout table.old from) ≡ true }
    ensures { RewritingStep limiter_layout (not_full config) (refilledBy config now_ms) table.old table.new from to result }
{
    let found = entry_at(table, ROW_WIDTH * from);
    let e = entry::refilled(config, found, now_ms);
    if entry::is_full(config, e) {
        return to;
    }
    move_with(table, from, to, e);
    to + 1
}

// The rows that are not full after their refill, one after another at the front. What stands behind them is left.
fn gather_busy(
    table: &mut [u8],
    count: usize,
    config: ChannelUpdateRateLimitConfig,
    now_ms: u64,
) -> usize
    requires count_in_bounds { row_width * count ≤ length table.old }
    requires count_value { every (limiter_sound config) (rows limiter_layout table.old count) ≡ true }
    ensures { Gathered limiter_layout table.old table.new result (prune_idle config now_ms (rows limiter_layout table.old count)) }
{
    let mut kept: usize = 0;
    for i in 0..count {
        kept = keep_busy(table, i, kept, config, now_ms);
    }
    kept
}

// prune_idle_entries: refills every row, takes those out that are full then, and answers how many are left.
fn prune_idle(
    table: &mut [u8],
    count: usize,
    config: ChannelUpdateRateLimitConfig,
    now_ms: u64,
) -> usize
    requires count_in_bounds { row_width * count ≤ length table.old }
    requires count_value { every (limiter_sound config) (rows limiter_layout table.old count) ≡ true }
    ensures { Counted limiter_layout table.old table.new count result (prune_idle config now_ms (rows limiter_layout table.old count)) }
{
    let kept = gather_busy(table, count, config, now_ms);
    table::rows::zero_rows(table, ROW_WIDTH, kept, count - kept);
    kept
}

// What a key without a row finds: rows pruned where they reach the limit, else as they are. Answers how many.
pub fn make_room(
    table: &mut [u8],
    count: usize,
    limit: u64,
    config: ChannelUpdateRateLimitConfig,
    now_ms: u64,
) -> usize
    requires count_in_bounds { row_width * count ≤ length table.old }
    requires count_value { every (limiter_sound config) (rows limiter_layout table.old count) ≡ true }
    ensures { Counted limiter_layout table.old table.new count result (room_for limit config now_ms (rows limiter_layout table.old count)) }
{
    if (count as u64) < limit {
        return count;
    }
    prune_idle(table, count, config, now_ms)
}
