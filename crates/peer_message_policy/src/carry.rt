// Carrying a decision out: its entry is stored, and the policy goes on with the load in flight.
ghost use Rattle.std.specs.Prelude.{◌≡◌};
ghost use Rattle.table.specs.Table.{store, erase};
ghost use Rattle.peer_message_policy.specs.Private.{Found, Known, Unknown, Left, room_for};
ghost use Rattle.peer_state.specs.Entry.{entry_expire_windows};
ghost use Rattle.peer_rows.specs.Private.{entry_at};
ghost use Rattle.peer_table.specs.Room.{make_room};
ghost use Rattle.peer_message_policy.specs.Policy.{rows_of};

use super::policy::PeerMessagePolicy;
use peer_state::entry::PeerMessagePolicyEntry;
use peer_state::ingress::FiberIngressBudget;
use pubkey::Pubkey;
use table::seek::Seek;

impl PeerMessagePolicy {
    // Stores the decided entry: over the peer's row, or in its gap.
    pub(crate) fn store_found(
        self,
        table: &mut [u8],
        peer: Pubkey,
        found: Seek,
        entry: PeerMessagePolicyEntry,
        ingress: FiberIngressBudget,
        now_ms: u64,
    ) -> PeerMessagePolicy
        requires { Found self table.old peer.bytes found }
        ensures { Left self ingress table.old (store peer.bytes entry (room_for self.config now_ms (rows_of self table.old) found)) result table.new }
    {
        match found {
            Seek::At(index) => self.store_known(table, peer, index, entry, ingress),
            Seek::Gap(gap) => self.store_new(table, peer, gap, entry, ingress, now_ms),
            // ruled out by the contract
            Seek::Unsound => self,
        }
    }

    // Stores the decided entry of a peer that has a row. The peer is named for the contract: its key stands in the row already.
    fn store_known(
        self,
        table: &mut [u8],
        peer: Pubkey,
        index: usize,
        entry: PeerMessagePolicyEntry,
        ingress: FiberIngressBudget,
    ) -> PeerMessagePolicy
        requires { Known self table.old peer.bytes index }
        ensures { Left self ingress table.old (store peer.bytes entry (rows_of self table.old)) result table.new }
    {
        peer_table::places::overwrite_at(table, self.rows as usize, index, entry);
        self.after(ingress, self.rows)
    }

    // Stores the decided entry of a peer that has no row: at its gap, or where the table is full, in room that is made for it. Rows go
    // then, so that its place is sought again.
    fn store_new(
        self,
        table: &mut [u8],
        peer: Pubkey,
        gap: usize,
        entry: PeerMessagePolicyEntry,
        ingress: FiberIngressBudget,
        now_ms: u64,
    ) -> PeerMessagePolicy
        requires { Unknown self table.old peer.bytes gap }
        ensures { Left self ingress table.old (store peer.bytes entry (make_room self.config now_ms (rows_of self table.old))) result table.new }
    {
        if self.rows < self.config.limit() {
            peer_table::places::insert_at(table, self.rows as usize, gap, peer, entry);
            return self.after(ingress, self.rows + 1);
        }
        let count = peer_table::room::make_room(self.config, table, self.rows as usize, now_ms);
        let rows = peer_table::places::store(table, count, peer, entry);
        self.after(ingress, rows as u64)
    }

    // Takes a known peer's row out.
    pub(crate) fn drop_known(
        self,
        table: &mut [u8],
        peer: Pubkey,
        index: usize,
    ) -> PeerMessagePolicy
        requires { Known self table.old peer.bytes index }
        ensures { Left self self.ingress table.old (erase peer.bytes (rows_of self table.old)) result table.new }
    {
        peer_table::places::remove_at(table, self.rows as usize, index);
        self.after(self.ingress, self.rows - 1)
    }

    // Lets the violation windows of a known peer's entry expire. A row that this leaves as it is, is not written: a window that
    // expires loses its count.
    pub(crate) fn expire_known(
        self,
        table: &mut [u8],
        peer: Pubkey,
        index: usize,
        entry: PeerMessagePolicyEntry,
        now_ms: u64,
    ) -> PeerMessagePolicy
        requires known { Known self table.old peer.bytes index }
        requires value { entry ≡ entry_at table.old index }
        ensures { Left self self.ingress table.old (store peer.bytes (entry_expire_windows entry now_ms self.config.ban_duration_ms) (rows_of self table.old)) result table.new }
    {
        let expired = entry.left(self.config, now_ms);
        if expired.same_counts(entry) {
            return self;
        }
        peer_table::places::overwrite_at(table, self.rows as usize, index, expired);
        self
    }
}
