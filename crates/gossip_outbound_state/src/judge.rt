// Judging the state and the memory lent to it, and finding a peer: what every call begins with.
ghost use Rattle.std.specs.Prelude.{◌≡◌};
ghost use Rattle.gossip_outbound_state.specs.State.{own_sound};
ghost use Rattle.gossip_outbound_state.specs.Private.{sought_in, is_unsound, full_at};

use crate::state::Outbound;
use pubkey::Pubkey;
use table::seek::Seek;

impl Outbound {
    // The record's own rules.
    fn is_sound(self) -> bool
        ensures { result ≡ own_sound self }
    {
        self.rows <= Outbound::MAX_ROWS && bucket_bytes::bytes::is_sound(self.global_outbound)
    }

    // The record, the memory's length and every row are judged, and the peer is found.
    pub fn sought(self, table: &[u8], peer: Pubkey) -> Seek
        ensures { result ≡ sought_in self table.now peer.bytes }
    {
        if !self.is_sound() {
            return Seek::Unsound;
        }
        if table.len() < Outbound::TABLE_BYTES {
            return Seek::Unsound;
        }
        let config = self.peer_outbound_config;
        gossip_outbound_rows::walk::sought(table, self.rows as usize, config, peer)
    }

    // Whether a row would have to be made, and there is no place for it.
    pub fn is_full(self, found: Seek) -> bool
        ensures { result ≡ full_at self.rows found }
    {
        match found {
            Seek::Gap(_) => self.rows >= Outbound::MAX_ROWS,
            Seek::Unsound | Seek::At(_) => false,
        }
    }
}

pub fn is_unsound(found: Seek) -> bool
    ensures { result ≡ is_unsound found }
{
    match found {
        Seek::Unsound => true,
        Seek::At(_) | Seek::Gap(_) => false,
    }
}
