// The key types of both policies, and their order.
//
// A `Pubkey` is any 33 bytes and an `OutPoint` any 36: what needs the curve stays behind. Keys compare byte by byte from the
// first, limiter keys by peer, OutPoint and side. Every function takes any arguments and is refused nothing.
#![tactic(auto)]

pub mod order;

ghost use Rattle.std.specs.Prelude.{◌≡◌};
ghost use Rattle.pubkey.specs.Order.{compare_bytes, compare_limiter_keys, limiter_key, limiter_key_bytes};

use lent_bytes::run::put_slice;
use std::cmp::Ordering;

// How many bytes a Pubkey has.
pub const PUBKEY_SIZE: usize = 33;

// A peer's public key in its compressed form.
#[derive(Clone, Copy, Debug, PartialEq, Eq)]
pub struct Pubkey {
    pub bytes: [u8; PUBKEY_SIZE],
}

// A channel's place on chain: a transaction hash of 32 bytes and an index of 4 (CKB's molecule schema).
#[derive(Clone, Copy, Debug, PartialEq, Eq)]
pub struct OutPoint {
    pub bytes: [u8; 36],
}

// What channel updates are counted by: who sent them, for which channel, for which of its two sides.
#[derive(Clone, Copy, Debug, PartialEq, Eq)]
pub struct ChannelUpdateLimiterKey {
    pub peer: Pubkey,
    pub channel_outpoint: OutPoint,
    pub is_node1: bool,
}

impl Pubkey {
    // How many bytes a key has when it is written out.
    pub fn serialization_len() -> usize
        ensures { result ≡ 33 }
    {
        PUBKEY_SIZE
    }

    // The key written out: its bytes as they are.
    pub fn serialize(self) -> [u8; PUBKEY_SIZE]
        ensures { result ≡ self.bytes }
    {
        self.bytes
    }

    // Which of two keys comes first.
    pub fn compare(self, other: Pubkey) -> Ordering
        ensures { result ≡ compare_bytes self.bytes other.bytes }
    {
        order::compare_bytes(&self.bytes, &other.bytes)
    }
}

impl OutPoint {
    // Which of two OutPoints comes first.
    pub fn compare(self, other: OutPoint) -> Ordering
        ensures { result ≡ compare_bytes self.bytes other.bytes }
    {
        order::compare_bytes(&self.bytes, &other.bytes)
    }
}

impl ChannelUpdateLimiterKey {
    // The key of a peer's updates for one side of a channel.
    pub fn new(peer: Pubkey, channel_outpoint: OutPoint, is_node1: bool) -> Self
        ensures { result ≡ limiter_key peer channel_outpoint is_node1 }
    {
        Self {
            peer,
            channel_outpoint,
            is_node1,
        }
    }

    // The 70 bytes that a table's row begins with: the peer, the OutPoint, and the side as 0 or 1.
    pub fn bytes(self) -> [u8; 70]
        ensures { result ≡ limiter_key_bytes self }
    {
        let mut bytes = [0; 70];
        put_slice(&mut bytes, 0, &self.peer.bytes);
        put_slice(&mut bytes, PUBKEY_SIZE, &self.channel_outpoint.bytes);
        bytes[69] = u8::from(self.is_node1);
        bytes
    }

    // Which of two keys comes first: by peer, then by OutPoint, then by side.
    pub fn compare(self, other: ChannelUpdateLimiterKey) -> Ordering
        ensures { result ≡ compare_limiter_keys self other }
    {
        self.peer
            .compare(other.peer)
            .then(self.channel_outpoint.compare(other.channel_outpoint))
            .then(self.is_node1.cmp(&other.is_node1))
    }
}
