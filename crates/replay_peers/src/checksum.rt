// A number that stands for a policy's settings and every lent byte.
use peer_message_policy::policy::PeerMessagePolicy;
use replay::checksum::{add, add_bytes, add_word};

fn settings(p: PeerMessagePolicy) -> u64 {
    let c = p.config;
    let interval = add_word(0, c.peer_message_interval_ms);
    let rate = add_word(interval, c.peer_message_rate_bytes_per_sec);
    let burst_bytes = add_word(rate, c.peer_message_burst_bytes);
    let duration = add_word(burst_bytes, c.ban_duration_ms);
    let tracked = add_word(duration, c.max_tracked_peers);
    let bytes = add_word(tracked, c.max_in_flight_bytes);
    let burst = add(bytes, c.peer_message_burst);
    let threshold = add(burst, c.violation_ban_threshold);
    add(threshold, c.max_in_flight_messages)
}

pub(crate) fn of(p: PeerMessagePolicy, table: &[u8]) -> u64 {
    add_bytes(settings(p), table)
}
