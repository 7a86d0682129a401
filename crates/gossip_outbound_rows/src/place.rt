// A row changed, put in or taken out at its place.
ghost use Rattle.std.specs.Prelude.{◌≡◌, ◌+◌, ◌*◌, ◌<◌, ◌≤◌, length};
ghost use Rattle.table.specs.Table.{row_under, remove_at};
ghost use Rattle.table.specs.Private.{insert_at};
ghost use Rattle.table.specs.Memory.{rows, Holds};
ghost use Rattle.table_laws.specs.Private.{over};
ghost use Rattle.gossip_outbound_rows.specs.Rows.{row_width, outbound_layout};

use crate::entry::OutboundEntry;
use crate::row::OutboundRows;
use keyed_rows::kind;
use pubkey::Pubkey;

// Takes the row at the index out.
pub fn remove_at(table: &mut [u8], count: usize, index: usize)
    requires index_lt_count { index < count }
    requires count_in_bounds { row_width * count ≤ length table.old }
    ensures { Holds outbound_layout table.old table.new count (remove_at index (rows outbound_layout table.old count)) }
{
    kind::remove_at::<OutboundRows, 4>(table, count, index);
}

// Writes an entry over that of the row at the index, which keeps its key.
pub fn overwrite_at(table: &mut [u8], count: usize, index: usize, e: OutboundEntry)
    requires index_lt_count { index < count }
    requires count_in_bounds { row_width * count ≤ length table.old }
    ensures { Holds outbound_layout table.old table.new count (over outbound_layout table.old count index e) }
{
    kind::overwrite_at::<OutboundRows, 4>(table, count, index, e);
}

// Puts a row in before the row at the index.
pub fn insert_at(table: &mut [u8], count: usize, index: usize, key: Pubkey, e: OutboundEntry)
    requires index_le_count { index ≤ count }
    requires count_in_bounds { row_width * (count + 1) ≤ length table.old }
    ensures { Holds outbound_layout table.old table.new count (insert_at index (row_under key.bytes e) (rows outbound_layout table.old count)) }
{
    kind::insert_at::<OutboundRows, 4>(table, count, index, &key.bytes, e);
}
