// The recorded steps that set the memory up: 0 the settings of the next policy, 1 makes it, 9 writes a word of the table, 10 sets the
// numbers of the policy and how much is lent to it. They leave any memory, unsound memory too.
use crate::held::{Held, says};
use peer_message_policy::policy::PeerMessagePolicy;
use peer_settings::config::PeerMessagePolicyConfig;
use peer_state::ingress::FiberIngressBudget;
use replay::checksum::fill;
use replay::line::Line;
use replay::memory::put_word;
use replay::record::Record;

fn too_wide() -> Line {
    says(b"more than 32 bits")
}

fn beyond() -> Line {
    says(b"beyond the table")
}

// All but the ceiling.
pub(crate) fn settings(held: &mut Held, r: Record) -> Line {
    let (Ok(burst), Ok(threshold)) = (u32::try_from(r.second), u32::try_from(r.fifth)) else {
        return too_wide();
    };
    held.next = PeerMessagePolicyConfig {
        peer_message_interval_ms: r.first,
        peer_message_burst: burst,
        peer_message_rate_bytes_per_sec: r.third,
        peer_message_burst_bytes: r.fourth,
        violation_ban_threshold: threshold,
        ban_duration_ms: r.sixth,
        max_tracked_peers: r.seventh,
        max_in_flight_messages: 0,
        max_in_flight_bytes: 0,
    };
    says(b"-")
}

// The ceiling's messages and bytes, how much of the table is lent, and the seed of what it holds before.
pub(crate) fn make(held: &mut Held, table: &mut [u8], r: Record) -> Line {
    let Ok(messages) = u32::try_from(r.first) else {
        return too_wide();
    };
    let lent = r.third as usize;
    if lent > table.len() {
        return beyond();
    }
    fill(table, r.fourth);
    held.lent = lent;
    let config = PeerMessagePolicyConfig {
        max_in_flight_messages: messages,
        max_in_flight_bytes: r.second,
        ..held.next
    };
    held.changed(PeerMessagePolicy::new(config, &mut table[..lent]))
}

pub(crate) fn write(table: &mut [u8], r: Record) -> Line {
    if put_word(table, r.first as usize, r.second) {
        says(b"-")
    } else {
        beyond()
    }
}

// Messages and bytes in flight, rows, tracked peers, bytes lent.
pub(crate) fn set(held: &mut Held, r: Record) -> Line {
    let Ok(messages) = u32::try_from(r.first) else {
        return too_wide();
    };
    held.policy = PeerMessagePolicy {
        config: PeerMessagePolicyConfig {
            max_tracked_peers: r.fourth,
            ..held.policy.config
        },
        ingress: FiberIngressBudget {
            in_flight_messages: messages,
            in_flight_bytes: r.second,
        },
        rows: r.third,
    };
    held.lent = r.fifth as usize;
    says(b"-")
}
