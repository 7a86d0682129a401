// A peer's bucket read, and written once a call is decided.
ghost use Rattle.std.specs.Prelude.{◌≡◌, false};
ghost use Rattle.table.specs.Table.{look, store, erase};
ghost use Rattle.table_laws.specs.Private.{Counted};
ghost use Rattle.gossip_outbound_rows.specs.Entry.{entry_of};
ghost use Rattle.gossip_outbound_rows.specs.Rows.{outbound_layout};
ghost use Rattle.gossip_outbound_state.specs.State.{rows_of, outbound_with, peer_delay, peer_debt};
ghost use Rattle.gossip_outbound_state.specs.Private.{Placed, PeerBucket, full_at};

use crate::charge;
use crate::state::Outbound;
use bucket_bytes::bytes::ByteTokenBucket;
use gossip_outbound_rows::row::{ROW_WIDTH, entry_at};
use gossip_outbound_rows::{entry, place};
use pubkey::Pubkey;
use table::seek::Seek;

impl Outbound {
    // The peer's bucket, or a fresh one where it has none. The peer is named for the contract: it was found already.
    pub fn peer_bucket(self, table: &[u8], peer: Pubkey, found: Seek) -> ByteTokenBucket
        requires { Placed self table.now peer.bytes found }
        ensures { PeerBucket self table.now peer.bytes result }
    {
        match found {
            Seek::At(index) => {
                let e = entry_at(table, ROW_WIDTH * index);
                entry::bucket_of(self.peer_outbound_config, e)
            }
            Seek::Gap(_) => ByteTokenBucket::new(self.peer_outbound_config),
            // A peer that was found or not stands somewhere: the search answers this for an unsound table only.
            Seek::Unsound => ByteTokenBucket::new(self.peer_outbound_config),
        }
    }

    // The delay of the peer's bucket, 0 where it has none.
    pub fn peer_delay(self, table: &[u8], peer: Pubkey, found: Seek, bytes: u64, now_ms: u64) -> u64
        requires { Placed self table.now peer.bytes found }
        ensures { result ≡ peer_delay self.peer_outbound_config bytes now_ms (look peer.bytes (rows_of self table.now)) }
    {
        match found {
            Seek::At(index) => {
                let e = entry_at(table, ROW_WIDTH * index);
                charge::delay_of(
                    entry::bucket_of(self.peer_outbound_config, e),
                    bytes,
                    now_ms,
                )
            }
            Seek::Gap(_) => 0,
            Seek::Unsound => 0,
        }
    }

    // Whether the peer's bucket is in debt; one that it has not is not.
    pub fn peer_debt(self, table: &[u8], peer: Pubkey, found: Seek, now_ms: u64) -> bool
        requires { Placed self table.now peer.bytes found }
        ensures { result ≡ peer_debt self.peer_outbound_config now_ms (look peer.bytes (rows_of self table.now)) }
    {
        match found {
            Seek::At(index) => {
                let e = entry_at(table, ROW_WIDTH * index);
                charge::in_debt(entry::bucket_of(self.peer_outbound_config, e), now_ms)
            }
            Seek::Gap(_) => false,
            Seek::Unsound => false,
        }
    }

    // Writes the peer's bucket, in its row or in a new one. Answers how many rows there are then.
    pub fn write_row(self, table: &mut [u8], peer: Pubkey, found: Seek, b: ByteTokenBucket) -> u64
        requires placed { Placed self table.old peer.bytes found }
        requires has_room { full_at self.rows found ≡ false }
        ensures { Counted outbound_layout table.old table.new self.rows result (store peer.bytes (entry_of b) (rows_of self table.old)) }
    {
        let e = entry::entry_of(b);
        match found {
            Seek::At(index) => {
                place::overwrite_at(table, self.rows as usize, index, e);
                self.rows
            }
            Seek::Gap(index) => {
                place::insert_at(table, self.rows as usize, index, peer, e);
                self.rows + 1
            }
            Seek::Unsound => self.rows,
        }
    }

    // Takes the peer's row out, if it has one. Answers how many rows are left.
    pub fn drop_row(self, table: &mut [u8], peer: Pubkey, found: Seek) -> u64
        requires { Placed self table.old peer.bytes found }
        ensures { Counted outbound_layout table.old table.new self.rows result (erase peer.bytes (rows_of self table.old)) }
    {
        match found {
            Seek::At(index) => {
                place::remove_at(table, self.rows as usize, index);
                self.rows - 1
            }
            Seek::Gap(_) => self.rows,
            Seek::Unsound => self.rows,
        }
    }

    // The state with this global bucket and so many rows.
    pub fn with(self, global_outbound: ByteTokenBucket, rows: u64) -> Outbound
        ensures { result ≡ outbound_with self global_outbound rows }
    {
        Outbound {
            global_outbound,
            rows,
            ..self
        }
    }
}
