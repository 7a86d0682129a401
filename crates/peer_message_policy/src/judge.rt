// Judging a policy and the memory lent to it, and finding a peer: what every call begins with.
ghost use Rattle.std.specs.Prelude.{◌≡◌};
ghost use Rattle.peer_message_policy.specs.Private.{sought_in};

use super::policy::PeerMessagePolicy;
use peer_rows::row::ROW_WIDTH;
use pubkey::Pubkey;
use table::seek::Seek;

impl PeerMessagePolicy {
    // The record, the memory's length and every row are judged, and the peer is found, in one walk.
    pub(crate) fn sought(self, table: &[u8], peer: Pubkey) -> Seek
        ensures { result ≡ sought_in self table.now peer.bytes }
    {
        if !self.is_sound() {
            return Seek::Unsound;
        }
        if ((table.len() / ROW_WIDTH) as u64) < self.config.limit() {
            return Seek::Unsound;
        }
        peer_rows::walk::sought(self.config, table, self.rows as usize, peer)
    }
}
