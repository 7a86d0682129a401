// A row changed, stored or taken out at its place.
ghost use Rattle.std.specs.Prelude.{◌≡◌, ◌+◌, ◌*◌, ◌<◌, ◌≤◌, length};
ghost use Rattle.table.specs.Table.{remove_at};
ghost use Rattle.table.specs.Table.{store as stored};
ghost use Rattle.table.specs.Memory.{rows, Holds};
ghost use Rattle.table_laws.specs.Private.{over};
ghost use Rattle.table_laws.specs.Private.{Counted};
ghost use Rattle.gossip_ban_rows.specs.Rows.{row_width, ban_layout};

use crate::entry::GossipBanEntry;
use crate::row::BanRows;
use keyed_rows::kind;
use pubkey::Pubkey;

// Takes the row at the index out.
pub fn remove_at(table: &mut [u8], count: usize, index: usize)
    requires index_lt_count { index < count }
    requires count_in_bounds { row_width * count ≤ length table.old }
    ensures { Holds ban_layout table.old table.new count (remove_at index (rows ban_layout table.old count)) }
{
    kind::remove_at::<BanRows, 4>(table, count, index);
}

// Writes an entry over that of the row at the index, which keeps its key.
pub fn overwrite_at(table: &mut [u8], count: usize, index: usize, e: GossipBanEntry)
    requires index_lt_count { index < count }
    requires count_in_bounds { row_width * count ≤ length table.old }
    ensures { Holds ban_layout table.old table.new count (over ban_layout table.old count index e) }
{
    kind::overwrite_at::<BanRows, 4>(table, count, index, e);
}

// Stores an entry under its key. Answers how many rows there are then.
pub fn store(table: &mut [u8], count: usize, key: Pubkey, e: GossipBanEntry) -> usize
    requires { row_width * (count + 1) ≤ length table.old }
    ensures { Counted ban_layout table.old table.new count result (stored key.bytes e (rows ban_layout table.old count)) }
{
    kind::store::<BanRows, 4>(table, count, &key.bytes, e)
}
