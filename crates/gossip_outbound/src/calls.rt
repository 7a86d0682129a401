// The calls. Each judges the state and finds the peer, decides on values, and writes last.
ghost use Rattle.std.specs.Prelude.{◌≡◌};
ghost use Rattle.gossip_outbound_state.specs.State.{exceeds};
ghost use Rattle.gossip_outbound.specs.Calls.{AllowMeets, EstimateMeets, RemoveMeets, ReserveMeets, RefundMeets, BypassMeets};

use super::answer::{OutboundReserved, OutboundSettled, OutboundTold};
use gossip_outbound_state::state::Outbound;
use gossip_outbound_state::{charge, judge};
use pubkey::Pubkey;
use refusal::{Answered, Refusal};

// Whether a message may be sent now. It is charged to both buckets only where both have the bytes.
pub fn allow_outbound_message(
    o: Outbound,
    table: &mut [u8],
    peer: Pubkey,
    bytes: u64,
    now_ms: u64,
) -> OutboundTold
    ensures { AllowMeets o table.old peer bytes now_ms result table.new }
{
    let found = o.sought(table, peer);
    if judge::is_unsound(found) {
        return Answered {
            state: o,
            answer: Err(Refusal::Unsound),
        };
    }
    let bucket = o.peer_bucket(table, peer, found);
    let Some(both) = charge::charge_both(o.global_outbound, bucket, bytes, now_ms) else {
        return Answered {
            state: o,
            answer: Ok(false),
        };
    };
    if o.is_full(found) {
        return Answered {
            state: o,
            answer: Err(Refusal::NoRow),
        };
    }
    let rows = o.write_row(table, peer, found, both.peer);
    Answered {
        state: o.with(both.global, rows),
        answer: Ok(true),
    }
}

// How long a message would have to wait. Nothing changes.
pub fn estimate_outbound_message_delay(
    o: Outbound,
    table: &[u8],
    peer: Pubkey,
    bytes: u64,
    now_ms: u64,
) -> Result<u64, Refusal>
    ensures { EstimateMeets o table.now peer bytes now_ms result }
{
    let found = o.sought(table, peer);
    if judge::is_unsound(found) {
        return Err(Refusal::Unsound);
    }
    let global_ms = charge::delay_of(o.global_outbound, bytes, now_ms);
    let peer_ms = o.peer_delay(table, peer, found, bytes, now_ms);
    Ok(global_ms.max(peer_ms))
}

// Forgets a peer's bucket.
pub fn remove_outbound_peer(o: Outbound, table: &mut [u8], peer: Pubkey) -> OutboundSettled
    ensures { RemoveMeets o table.old peer result table.new }
{
    let found = o.sought(table, peer);
    if judge::is_unsound(found) {
        return Answered {
            state: o,
            answer: Err(Refusal::Unsound),
        };
    }
    let rows = o.drop_row(table, peer, found);
    Answered {
        state: o.with(o.global_outbound, rows),
        answer: Ok(()),
    }
}

// Charges a message to both buckets in any case, and says how long its sender must wait.
pub fn reserve_outbound_message(
    o: Outbound,
    table: &mut [u8],
    peer: Pubkey,
    bytes: u64,
    now_ms: u64,
) -> OutboundReserved
    ensures { ReserveMeets o table.old peer bytes now_ms result table.new }
{
    let found = o.sought(table, peer);
    if judge::is_unsound(found) {
        return Answered {
            state: o,
            answer: Err(Refusal::Unsound),
        };
    }
    if o.is_full(found) {
        return Answered {
            state: o,
            answer: Err(Refusal::NoRow),
        };
    }
    let bucket = o.peer_bucket(table, peer, found);
    let promised = charge::promise_both(o.global_outbound, bucket, bytes, now_ms);
    let rows = o.write_row(table, peer, found, promised.peer);
    Answered {
        state: o.with(promised.global, rows),
        answer: Ok(promised.delay_ms),
    }
}

// Gives the bytes of a message back that was not sent after all. Where the peers' limit is off, no row is looked at.
pub fn refund_outbound_message(
    o: Outbound,
    table: &mut [u8],
    peer: Pubkey,
    bytes: u64,
    now_ms: u64,
) -> OutboundSettled
    ensures { RefundMeets o table.old peer bytes now_ms result table.new }
{
    let found = o.sought(table, peer);
    if judge::is_unsound(found) {
        return Answered {
            state: o,
            answer: Err(Refusal::Unsound),
        };
    }
    let global = charge::refunded(o.global_outbound, bytes, now_ms);
    if o.peer_outbound_config.is_disabled() {
        return Answered {
            state: o.with(global, o.rows),
            answer: Ok(()),
        };
    }
    if o.is_full(found) {
        return Answered {
            state: o,
            answer: Err(Refusal::NoRow),
        };
    }
    let bucket = o.peer_bucket(table, peer, found);
    let refunded = charge::refunded(bucket, bytes, now_ms);
    let rows = o.write_row(table, peer, found, refunded);
    Answered {
        state: o.with(global, rows),
        answer: Ok(()),
    }
}

// Whether a message is more than a full bucket has, of either limit that is on: it could never be sent by waiting.
pub fn outbound_message_exceeds_single_message_capacity(o: Outbound, bytes: u64) -> bool
    ensures { result ≡ exceeds o bytes }
{
    charge::exceeds_burst(o.global_outbound.config, bytes)
        || charge::exceeds_burst(o.peer_outbound_config, bytes)
}

// Whether a message of that size may be sent all the same: where neither bucket is in debt. Nothing changes.
pub fn should_bypass_oversized_outbound_message(
    o: Outbound,
    table: &[u8],
    peer: Pubkey,
    bytes: u64,
    now_ms: u64,
) -> Result<bool, Refusal>
    ensures { BypassMeets o table.now peer bytes now_ms result }
{
    let found = o.sought(table, peer);
    if judge::is_unsound(found) {
        return Err(Refusal::Unsound);
    }
    if !outbound_message_exceeds_single_message_capacity(o, bytes) {
        return Ok(false);
    }
    Ok(!charge::in_debt(o.global_outbound, now_ms) && !o.peer_debt(table, peer, found, now_ms))
}
