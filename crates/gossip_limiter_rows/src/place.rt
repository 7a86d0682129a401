// A row changed or stored.
ghost use Rattle.std.specs.Prelude.{◌+◌, ◌*◌, ◌<◌, ◌≤◌, length};
ghost use Rattle.pubkey.specs.Order.{limiter_key_bytes};
ghost use Rattle.table.specs.Table.{store as stored};
ghost use Rattle.table.specs.Memory.{rows, Holds};
ghost use Rattle.table_laws.specs.Private.{over};
ghost use Rattle.table_laws.specs.Private.{Counted};
ghost use Rattle.gossip_limiter_rows.specs.Rows.{row_width, limiter_layout};

use crate::entry::ChannelUpdateLimiterEntry;
use crate::row::LimiterRows;
use keyed_rows::kind;
use pubkey::ChannelUpdateLimiterKey;

// Writes an entry over that of the row at the index, which keeps its key.
pub fn overwrite_at(table: &mut [u8], count: usize, index: usize, e: ChannelUpdateLimiterEntry)
    requires index_lt_count { index < count }
    requires count_in_bounds { row_width * count ≤ length table.old }
    ensures { Holds limiter_layout table.old table.new count (over limiter_layout table.old count index e) }
{
    kind::overwrite_at::<LimiterRows, 3>(table, count, index, e);
}

// Stores an entry under its key. Answers how many rows there are then.
pub fn store(
    table: &mut [u8],
    count: usize,
    key: ChannelUpdateLimiterKey,
    e: ChannelUpdateLimiterEntry,
) -> usize
    requires { row_width * (count + 1) ≤ length table.old }
    ensures { Counted limiter_layout table.old table.new count result (stored (limiter_key_bytes key) e (rows limiter_layout table.old count)) }
{
    kind::store::<LimiterRows, 3>(table, count, &key.bytes(), e)
}
