// The settings line: nine numbers in the settings' order.
ghost use Rattle.std.specs.Prelude.{◌≡◌};
ghost use Rattle.trace_lines.specs.Lines.{settings_of};

use super::field::{LARGEST_32, LARGEST_64, ends, field, value};
use peer_settings::config::PeerMessagePolicyConfig;

// The settings that a line without its newline spells. Each number has to fit its field.
pub fn parse_settings(line: &[u8]) -> Option<PeerMessagePolicyConfig>
    ensures { result ≡ settings_of line.now }
{
    let interval = decimal::scan(line, 0, LARGEST_64);
    let burst = field(line, interval, LARGEST_32);
    let rate = field(line, burst, LARGEST_64);
    let burst_bytes = field(line, rate, LARGEST_64);
    let threshold = field(line, burst_bytes, LARGEST_32);
    let ban_duration = field(line, threshold, LARGEST_64);
    let max_tracked = field(line, ban_duration, LARGEST_64);
    let max_messages = field(line, max_tracked, LARGEST_32);
    let max_bytes = field(line, max_messages, LARGEST_64);
    if !ends(line, max_bytes) {
        return None;
    }
    Some(PeerMessagePolicyConfig {
        peer_message_interval_ms: value(interval),
        peer_message_burst: value(burst) as u32,
        peer_message_rate_bytes_per_sec: value(rate),
        peer_message_burst_bytes: value(burst_bytes),
        violation_ban_threshold: value(threshold) as u32,
        ban_duration_ms: value(ban_duration),
        max_tracked_peers: value(max_tracked),
        max_in_flight_messages: value(max_messages) as u32,
        max_in_flight_bytes: value(max_bytes),
    })
}
