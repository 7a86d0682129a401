// What the calls do once the policy is judged and the peer is found, or its place: decide, then write.
ghost use Rattle.std.specs.Prelude.{◌≡◌, Ok};
ghost use Rattle.peer_message_policy.specs.Calls.{AdmitMeets, RecordInvalidMeets, IsBannedMeets, OnDisconnectedMeets, HeldTimeMeets};
ghost use Rattle.peer_message_policy.specs.Private.{Known, Found, entry_found};

use super::answer::{Admission, Invalid, Standing};
use super::policy::PeerMessagePolicy;
use peer_state::entry::PeerMessagePolicyEntry;
use peer_verdict::verdict::{Cause, InvalidCause};
use pubkey::Pubkey;
use table::seek::Seek;

impl PeerMessagePolicy {
    // The entry that a call meets: that of the peer's row, or a new one where the peer has none. The peer is named for the contract.
    fn entry_found(
        self,
        table: &[u8],
        peer: Pubkey,
        found: Seek,
        now_ms: u64,
    ) -> PeerMessagePolicyEntry
        requires { Found self table.now peer.bytes found }
        ensures { result ≡ entry_found self.config now_ms table.now found }
    {
        match found {
            Seek::At(index) => peer_rows::row::entry_at(table, index),
            Seek::Gap(_) => PeerMessagePolicyEntry::new(now_ms, self.config),
            // ruled out by the contract
            Seek::Unsound => PeerMessagePolicyEntry::new(now_ms, self.config),
        }
    }

    // One way for a peer that has a row and for one that has none, so that the decision stands here once and is compiled into it: a new
    // entry has no ban, and what differs is where the decided entry goes.
    pub(crate) fn admit_found(
        self,
        table: &mut [u8],
        peer: Pubkey,
        found: Seek,
        bytes: u64,
        now_ms: u64,
    ) -> Admission
        requires { Found self table.old peer.bytes found }
        ensures { AdmitMeets self table.old peer bytes now_ms result table.new }
    {
        let entry = self.entry_found(table, peer, found, now_ms);
        if entry.is_banned(now_ms) {
            return Admission {
                cause: Cause::LiveBan,
                policy: self,
            };
        }
        let current = entry.to_update(self.config, now_ms);
        let room = self.ingress.try_reserve(self.config, bytes);
        let d = peer_verdict::verdict::decide(
            self.config,
            self.ingress,
            current,
            bytes,
            now_ms,
            room,
        );
        if d.cause.refuses() {
            return Admission {
                cause: d.cause,
                policy: self,
            };
        }
        Admission {
            cause: d.cause,
            policy: self.store_found(table, peer, found, d.entry, d.ingress, now_ms),
        }
    }

    pub(crate) fn invalid_found(
        self,
        table: &mut [u8],
        peer: Pubkey,
        found: Seek,
        now_ms: u64,
    ) -> Invalid
        requires { Found self table.old peer.bytes found }
        ensures { RecordInvalidMeets self table.old peer now_ms result table.new }
    {
        let entry = self.entry_found(table, peer, found, now_ms);
        if entry.is_banned(now_ms) {
            return Invalid {
                cause: InvalidCause::LiveBan,
                policy: self,
            };
        }
        let current = entry.to_update(self.config, now_ms);
        let d = peer_verdict::verdict::decide_invalid(self.config, current, now_ms);
        Invalid {
            cause: d.cause,
            policy: self.store_found(table, peer, found, d.entry, self.ingress, now_ms),
        }
    }

    pub(crate) fn standing_known(
        self,
        table: &mut [u8],
        peer: Pubkey,
        index: usize,
        now_ms: u64,
    ) -> Standing
        requires { Known self table.old peer.bytes index }
        ensures { IsBannedMeets self table.old peer now_ms result table.new }
    {
        let entry = peer_rows::row::entry_at(table, index);
        if entry.is_banned(now_ms) {
            return Standing::Banned(self);
        }
        if entry.is_spent(now_ms) {
            return Standing::Free(self.drop_known(table, peer, index));
        }
        Standing::Free(self)
    }

    pub(crate) fn disconnected_known(
        self,
        table: &mut [u8],
        peer: Pubkey,
        index: usize,
        now_ms: u64,
    ) -> PeerMessagePolicy
        requires { Known self table.old peer.bytes index }
        ensures { OnDisconnectedMeets self table.old peer now_ms (Ok result) table.new }
    {
        let entry = peer_rows::row::entry_at(table, index);
        if entry.is_banned(now_ms) {
            return self;
        }
        if entry.is_spent(now_ms) {
            return self.drop_known(table, peer, index);
        }
        self.expire_known(table, peer, index, entry, now_ms)
    }

    pub(crate) fn held_known(self, table: &[u8], peer: Pubkey, index: usize, given_ms: u64) -> u64
        requires { Known self table.now peer.bytes index }
        ensures { HeldTimeMeets self table.now peer given_ms (Ok result) }
    {
        given_ms.max(peer_rows::row::entry_at(table, index).last_used_ms)
    }
}
