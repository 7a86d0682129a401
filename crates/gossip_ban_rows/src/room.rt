// Room for one peer more, as the Rust makes it: the expired entries go, and if the table is still full, one row more.
ghost use Rattle.std.specs.Prelude.{◌≡◌, ◌+◌, ◌*◌, ◌<◌, ◌≤◌, ltb, length};
ghost use Rattle.table.specs.Table.{nothing, best, minimum_from};
ghost use Rattle.table.specs.Memory.{rows};
ghost use Rattle.table_laws.specs.Private.{Counted};
ghost use Rattle.gossip_ban_rows.specs.Rows.{row_width, ban_layout};
ghost use Rattle.gossip_ban_rows.specs.Room.{prune_expired, rank, eviction_rank};
ghost use Rattle.gossip_ban_rows.specs.Private.{is_lighter, rank_at, earlier_of, room_for};
ghost use Rattle.gossip_ban_rows.specs.Room.{evict as evicted};

use crate::entry::GossipBanEntry;
use crate::place::remove_at;
use crate::row::{BanRows, ROW_WIDTH, entry_at};
use keyed_rows::kind;

// prune_expired: takes the expired rows out, and answers how many are left.
pub fn prune_expired(table: &mut [u8], count: usize, duration_ms: u64, now_ms: u64) -> usize
    requires { row_width * count ≤ length table.old }
    ensures { Counted ban_layout table.old table.new count result (prune_expired duration_ms now_ms (rows ban_layout table.old count)) }
{
    kind::retain::<BanRows, 4, _>(table, count, |e| !e.is_expired(duration_ms, now_ms))
}

// Whether an entry has the smaller score, or the same and the older update.
fn is_lighter(e: GossipBanEntry, other: GossipBanEntry) -> bool
    ensures { result ≡ is_lighter e other }
{
    e.score < other.score || (e.score == other.score && e.last_updated_ms < other.last_updated_ms)
}

// Whether an entry goes before another: one without a live ban, then the lighter.
fn goes_before(e: GossipBanEntry, other: GossipBanEntry, now_ms: u64) -> bool
    ensures { result ≡ ltb (rank now_ms e) (rank now_ms other) }
{
    let banned = e.is_currently_banned(now_ms);
    if banned != other.is_currently_banned(now_ms) {
        return !banned;
    }
    is_lighter(e, other)
}

// Of the rows at two indexes the one that goes first; where they are equal the one that was found, whose key is the smaller.
fn earlier(table: &[u8], index: usize, found: usize, now_ms: u64) -> usize
    requires index_in_bounds { row_width * (index + 1) ≤ length table.now }
    requires found_in_bounds { row_width * (found + 1) ≤ length table.now }
    ensures { result ≡ earlier_of now_ms table.now index found }
{
    let e = entry_at(table, ROW_WIDTH * index);
    let first = entry_at(table, ROW_WIDTH * found);
    if goes_before(e, first, now_ms) {
        index
    } else {
        found
    }
}

// The row that goes first.
fn first_to_go(table: &[u8], count: usize, now_ms: u64) -> usize
    requires count_nonzero { 0 < count }
    requires count_in_bounds { row_width * count ≤ length table.now }
    ensures { minimum_from (eviction_rank now_ms) nothing 0 (rows ban_layout table.now count) ≡ best result (rank_at now_ms table.now result) }
{
    let mut found: usize = 0;
    for i in 1..count {
        found = earlier(table, i, found, now_ms);
    }
    found
}

// Takes out the row that goes first, and answers how many are left.
fn evict(table: &mut [u8], count: usize, now_ms: u64) -> usize
    requires count_nonzero { 0 < count }
    requires count_in_bounds { row_width * count ≤ length table.old }
    ensures { Counted ban_layout table.old table.new count result (evicted now_ms (rows ban_layout table.old count)) }
{
    let index = first_to_go(table, count, now_ms);
    remove_at(table, count, index);
    count - 1
}

// maybe_make_room_for_new_entry, for a peer that has no row. Answers how many rows are left.
pub fn make_room(table: &mut [u8], count: usize, limit: u64, duration_ms: u64, now_ms: u64) -> usize
    requires limit_nonzero { 0 < limit }
    requires count_in_bounds { row_width * count ≤ length table.old }
    ensures { Counted ban_layout table.old table.new count result (room_for limit duration_ms now_ms (rows ban_layout table.old count)) }
{
    if (count as u64) < limit {
        return count;
    }
    let left = prune_expired(table, count, duration_ms, now_ms);
    if (left as u64) < limit {
        return left;
    }
    evict(table, left, now_ms)
}
