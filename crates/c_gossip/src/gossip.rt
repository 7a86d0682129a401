// The whole gossip state: 1 makes one of the words' settings, 2 one of the defaults, 3 counts a violation, 4 asks whether a peer is banned,
// 5 forgets expired bans; of outbound messages, 6 asks whether one may be sent, 7 how long one would wait, 8 forgets a peer, 9 charges one
// in any case, 10 gives one back, 11 asks whether one that is too large may be sent all the same, 12 whether one is too large; 13, 14, 15
// ask for the capacities of the delay queue, of all peers together and of one peer.
ghost use Rattle.std.specs.Prelude.{◌≡◌};
ghost use Rattle.c_bans.specs.Blame.{blame_of};
ghost use Rattle.c_gossip.specs.Gossip.{gossip_operation, capacity_reply, BlameDoes, GossipDoes, GossipExported};

use super::gossip_words;
use c_bans::blame;
use c_terms::reply;
use c_terms::reply::Reply;
use gossip_policy::state::GossipPolicyState;
use pubkey::Pubkey;
use refusal::Answered;

#[derive(Clone, Copy, Debug, PartialEq, Eq)]
pub enum GossipOperation {
    New,
    Default,
    RecordViolation,
    IsBanned,
    PruneBans,
    Allow,
    EstimateDelay,
    RemovePeer,
    Reserve,
    Refund,
    ShouldBypass,
    Exceeds,
    QueueCapacity,
    GlobalCapacity,
    PeerCapacity,
    Unknown,
}

impl From<u32> for GossipOperation {
    ghost from_gives = { λ n o. o ≡ gossip_operation n };

    fn from(n: u32) -> GossipOperation {
        match n {
            1 => GossipOperation::New,
            2 => GossipOperation::Default,
            3 => GossipOperation::RecordViolation,
            4 => GossipOperation::IsBanned,
            5 => GossipOperation::PruneBans,
            6 => GossipOperation::Allow,
            7 => GossipOperation::EstimateDelay,
            8 => GossipOperation::RemovePeer,
            9 => GossipOperation::Reserve,
            10 => GossipOperation::Refund,
            11 => GossipOperation::ShouldBypass,
            12 => GossipOperation::Exceeds,
            13 => GossipOperation::QueueCapacity,
            14 => GossipOperation::GlobalCapacity,
            15 => GossipOperation::PeerCapacity,
            _ => GossipOperation::Unknown,
        }
    }
}

// The state after a call, and what the call said.
pub type GossipDone = Answered<GossipPolicyState, Reply>;

fn capacity(a: Option<u64>) -> Reply
    ensures { result ≡ capacity_reply a }
{
    match a {
        None => Reply::plain(reply::NO),
        Some(n) => Reply::value(n),
    }
}

fn blamed(
    s: GossipPolicyState,
    ban_table: &mut [u8],
    peer: Pubkey,
    violation: u32,
    now_ms: u64,
) -> GossipDone
    ensures { BlameDoes (blame_of violation) s ban_table.old peer now_ms result ban_table.new }
{
    match blame::blame_of(violation) {
        Some(v) => reply::replied(s.record_violation(ban_table, peer, v, now_ms)),
        None => Answered {
            state: s,
            answer: Reply::plain(reply::UNKNOWN),
        },
    }
}

fn done(
    operation: GossipOperation,
    s: GossipPolicyState,
    ban_table: &mut [u8],
    outbound_table: &mut [u8],
    peer: Pubkey,
    violation: u32,
    bytes: u64,
    now_ms: u64,
) -> GossipDone
    ensures { GossipDoes operation s ban_table.old outbound_table.old peer violation bytes now_ms result ban_table.new outbound_table.new }
{
    match operation {
        GossipOperation::New => {
            let config = gossip_words::config_of(s);
            reply::replied(GossipPolicyState::new(config, ban_table, outbound_table))
        }
        GossipOperation::Default => reply::replied(GossipPolicyState::default(
            ban_table,
            outbound_table,
        )),
        GossipOperation::RecordViolation => blamed(s, ban_table, peer, violation, now_ms),
        GossipOperation::IsBanned => reply::replied(s.is_banned(ban_table, peer, now_ms)),
        GossipOperation::PruneBans => reply::replied(s.prune_bans(ban_table, now_ms)),
        GossipOperation::Allow => {
            reply::replied(s.allow_outbound_message(outbound_table, peer, bytes, now_ms))
        }
        GossipOperation::EstimateDelay => Answered {
            state: s,
            answer: s
                .estimate_outbound_message_delay(outbound_table, peer, bytes, now_ms)
                .into(),
        },
        GossipOperation::RemovePeer => reply::replied(s.remove_outbound_peer(outbound_table, peer)),
        GossipOperation::Reserve => {
            reply::replied(s.reserve_outbound_message(outbound_table, peer, bytes, now_ms))
        }
        GossipOperation::Refund => {
            reply::replied(s.refund_outbound_message(outbound_table, peer, bytes, now_ms))
        }
        GossipOperation::ShouldBypass => Answered {
            state: s,
            answer: s
                .should_bypass_oversized_outbound_message(outbound_table, peer, bytes, now_ms)
                .into(),
        },
        GossipOperation::Exceeds => Answered {
            state: s,
            answer: s
                .outbound_message_exceeds_single_message_capacity(bytes)
                .into(),
        },
        GossipOperation::QueueCapacity => Answered {
            state: s,
            answer: Reply::value(s.outbound_delay_queue_capacity()),
        },
        GossipOperation::GlobalCapacity => Answered {
            state: s,
            answer: capacity(s.outbound_global_delayed_byte_capacity()),
        },
        GossipOperation::PeerCapacity => Answered {
            state: s,
            answer: capacity(s.outbound_peer_delayed_byte_capacity()),
        },
        GossipOperation::Unknown => Answered {
            state: s,
            answer: Reply::plain(reply::UNKNOWN),
        },
    }
}

#[unsafe(no_mangle)]
pub extern "C" fn uglezmir_gossip(
    operation: u32,
    longs: &mut [u64; 10],
    shorts: &mut [u32; 6],
    ban_table: &mut [u8],
    outbound_table: &mut [u8],
    peer: &[u8; 33],
    violation: u32,
    bytes: u64,
    now_ms: u64,
    value: &mut [u64; 1],
) -> u32
    ensures { GossipExported operation longs.old shorts.old ban_table.old outbound_table.old peer.now violation bytes now_ms value.old result longs.new shorts.new ban_table.new outbound_table.new value.new }
{
    let s = gossip_words::state_of(longs, shorts);
    let key = Pubkey { bytes: *peer };
    let d = done(
        operation.into(),
        s,
        ban_table,
        outbound_table,
        key,
        violation,
        bytes,
        now_ms,
    );
    reply::leave(
        d.answer,
        gossip_words::longs_of(d.state),
        gossip_words::shorts_of(d.state),
        longs,
        shorts,
        value,
    )
}
