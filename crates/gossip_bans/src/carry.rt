// Rows written once a call is decided: the tracker goes on with as many rows as are left.
ghost use Rattle.std.specs.Prelude.{◌≡◌};
ghost use Rattle.table.specs.Table.{store, erase};
ghost use Rattle.gossip_ban_rows.specs.Private.{room_for};
ghost use Rattle.gossip_bans.specs.Tracker.{limit_of, rows_of};
ghost use Rattle.gossip_bans.specs.Calls.{tracker_with};
ghost use Rattle.gossip_bans.specs.Private.{Known, Unknown, Left};

use super::tracker::GossipBanTracker;
use gossip_ban_rows::entry::GossipBanEntry;
use gossip_ban_rows::{place, room};
use pubkey::Pubkey;

impl GossipBanTracker {
    // The tracker with so many rows.
    pub(crate) fn with_rows(self, rows: u64) -> GossipBanTracker
        ensures { result ≡ tracker_with self rows }
    {
        GossipBanTracker { rows, ..self }
    }

    // Stores the entry of a peer that has a row. The peer is named for the contract: its key stands in the row already.
    pub(crate) fn store_known(
        self,
        table: &mut [u8],
        peer: Pubkey,
        index: usize,
        e: GossipBanEntry,
    ) -> GossipBanTracker
        requires { Known self table.old peer.bytes index }
        ensures { Left self table.old (store peer.bytes e (rows_of self table.old)) result table.new }
    {
        place::overwrite_at(table, self.rows as usize, index, e);
        self
    }

    // Makes room for a peer that has no row, and stores its entry.
    pub(crate) fn store_new(
        self,
        table: &mut [u8],
        peer: Pubkey,
        gap: usize,
        e: GossipBanEntry,
        now_ms: u64,
    ) -> GossipBanTracker
        requires { Unknown self table.old peer.bytes gap }
        ensures { Left self table.old (store peer.bytes e (room_for (limit_of self.max_entries) self.config.duration_ms now_ms (rows_of self table.old))) result table.new }
    {
        let limit = self.limit();
        let left = room::make_room(
            table,
            self.rows as usize,
            limit,
            self.config.duration_ms,
            now_ms,
        );
        let rows = place::store(table, left, peer, e);
        self.with_rows(rows as u64)
    }

    // Takes a known peer's row out.
    pub(crate) fn drop_known(self, table: &mut [u8], peer: Pubkey, index: usize) -> GossipBanTracker
        requires { Known self table.old peer.bytes index }
        ensures { Left self table.old (erase peer.bytes (rows_of self table.old)) result table.new }
    {
        place::remove_at(table, self.rows as usize, index);
        self.with_rows(self.rows - 1)
    }
}
