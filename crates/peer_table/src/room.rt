// Room for one peer more, as the Rust makes it: the bans that are over go, and if the table is still full, one row more.
ghost use Rattle.std.specs.Prelude.{◌+◌, ◌*◌, ◌≤◌, length};
ghost use Rattle.table.specs.Memory.{rows};
ghost use Rattle.table_laws.specs.Private.{Counted};
ghost use Rattle.peer_rows.specs.Rows.{row_width, peer_layout};
ghost use Rattle.peer_table.specs.Room.{prune_expired_bans, make_room};
ghost use Rattle.peer_table.specs.Room.{evict as evicted};

use super::first::find_first;
use super::places::remove_at;
use keyed_rows::kind;
use peer_rows::row::PeerRows;
use peer_settings::config::PeerMessagePolicyConfig;

// prune_expired_bans: takes out the rows whose ban is over, and answers how many are left.
pub fn remove_spent(table: &mut [u8], count: usize, now_ms: u64) -> usize
    requires { row_width * count ≤ length table.old }
    ensures { Counted peer_layout table.old table.new count result (prune_expired_bans now_ms (rows peer_layout table.old count)) }
{
    kind::retain::<PeerRows, 11, _>(table, count, |e| !e.is_spent(now_ms))
}

// Takes out the peer without a ban that was used last before all others, or if there is none the peer whose ban ends first, and
// answers how many rows are left.
pub fn evict(table: &mut [u8], count: usize) -> usize
    requires { row_width * count ≤ length table.old }
    ensures { Counted peer_layout table.old table.new count result (evicted (rows peer_layout table.old count)) }
{
    // Kept: two `if let`. With `or_else` the proof did not close: an answer has no name for what the closure ensures.
    if let Some((index, _)) = find_first(table, count, false) {
        remove_at(table, count, index);
        return count - 1;
    }
    if let Some((index, _)) = find_first(table, count, true) {
        remove_at(table, count, index);
        return count - 1;
    }
    count
}

// make_room, for a peer that has no row. Answers how many rows are left.
pub fn make_room(
    config: PeerMessagePolicyConfig,
    table: &mut [u8],
    count: usize,
    now_ms: u64,
) -> usize
    requires { row_width * count ≤ length table.old }
    ensures { Counted peer_layout table.old table.new count result (make_room config now_ms (rows peer_layout table.old count)) }
{
    let limit = config.limit();
    if (count as u64) < limit {
        return count;
    }
    let left = remove_spent(table, count, now_ms);
    if (left as u64) < limit {
        return left;
    }
    evict(table, left)
}
