// A row changed, put in or taken out at its place.
ghost use Rattle.std.specs.Prelude.{◌+◌, ◌*◌, ◌<◌, ◌≤◌, length};
ghost use Rattle.table.specs.Table.{row_under, remove_at};
ghost use Rattle.table.specs.Private.{insert_at};
ghost use Rattle.table.specs.Table.{store as stored};
ghost use Rattle.table.specs.Memory.{rows, Holds};
ghost use Rattle.table_laws.specs.Private.{over};
ghost use Rattle.table_laws.specs.Private.{Counted};
ghost use Rattle.peer_rows.specs.Rows.{row_width, peer_layout};

use keyed_rows::kind;
use peer_rows::row::PeerRows;
use peer_state::entry::PeerMessagePolicyEntry;
use pubkey::Pubkey;

// Takes the row at the index out.
pub fn remove_at(table: &mut [u8], count: usize, index: usize)
    requires index_lt_count { index < count }
    requires count_in_bounds { row_width * count ≤ length table.old }
    ensures { Holds peer_layout table.old table.new count (remove_at index (rows peer_layout table.old count)) }
{
    kind::remove_at::<PeerRows, 11>(table, count, index);
}

// Writes an entry over that of the row at the index, which keeps its key.
pub fn overwrite_at(table: &mut [u8], count: usize, index: usize, e: PeerMessagePolicyEntry)
    requires index_lt_count { index < count }
    requires count_in_bounds { row_width * count ≤ length table.old }
    ensures { Holds peer_layout table.old table.new count (over peer_layout table.old count index e) }
{
    kind::overwrite_at::<PeerRows, 11>(table, count, index, e);
}

// Puts a row in before the row at the index.
pub fn insert_at(
    table: &mut [u8],
    count: usize,
    index: usize,
    key: Pubkey,
    e: PeerMessagePolicyEntry,
)
    requires index_le_count { index ≤ count }
    requires count_in_bounds { row_width * (count + 1) ≤ length table.old }
    ensures { Holds peer_layout table.old table.new count (insert_at index (row_under key.bytes e) (rows peer_layout table.old count)) }
{
    kind::insert_at::<PeerRows, 11>(table, count, index, &key.bytes, e);
}

// Stores an entry under its key: over the row of that key, or in a row put in where the key belongs. Answers how many rows there
// are then.
pub fn store(table: &mut [u8], count: usize, key: Pubkey, e: PeerMessagePolicyEntry) -> usize
    requires { row_width * (count + 1) ≤ length table.old }
    ensures { Counted peer_layout table.old table.new count result (stored key.bytes e (rows peer_layout table.old count)) }
{
    kind::store::<PeerRows, 11>(table, count, &key.bytes, e)
}
