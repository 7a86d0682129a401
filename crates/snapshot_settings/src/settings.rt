// The settings as kind 1 of a snapshot: nine numbers of eight bytes, in the Rust's order.
ghost use Rattle.std.specs.Prelude.{◌≡◌, ◌+◌, ◌≤◌, length};
ghost use Rattle.lent_bytes.specs.LentBytes.{part, put};
ghost use Rattle.snapshot_settings.specs.Settings.{settings_size, settings_words, settings_bytes, settings_of};

use lent_bytes::number::get_u64;
use peer_settings::config::PeerMessagePolicyConfig;

// How many numbers they are, and the size that they take, in bytes.
const SETTINGS_WORDS: usize = 9;

pub const SETTINGS_SIZE: usize = 8 * SETTINGS_WORDS;

// The settings that stand at the place.
pub fn read_settings(bytes: &[u8], at: usize) -> Option<PeerMessagePolicyConfig>
    requires { at + settings_size ≤ length bytes.now }
    ensures { result ≡ settings_of (part bytes.now at settings_size) }
{
    let burst = get_u64(bytes, at + 8);
    if burst > 0xffff_ffff {
        return None;
    }
    let threshold = get_u64(bytes, at + 32);
    if threshold > 0xffff_ffff {
        return None;
    }
    let messages = get_u64(bytes, at + 56);
    if messages > 0xffff_ffff {
        return None;
    }
    Some(PeerMessagePolicyConfig {
        peer_message_interval_ms: get_u64(bytes, at),
        peer_message_burst: burst as u32,
        peer_message_rate_bytes_per_sec: get_u64(bytes, at + 16),
        peer_message_burst_bytes: get_u64(bytes, at + 24),
        violation_ban_threshold: threshold as u32,
        ban_duration_ms: get_u64(bytes, at + 40),
        max_tracked_peers: get_u64(bytes, at + 48),
        max_in_flight_messages: messages as u32,
        max_in_flight_bytes: get_u64(bytes, at + 64),
    })
}

// The nine settings in their order.
fn words_of(c: PeerMessagePolicyConfig) -> [u64; SETTINGS_WORDS]
    ensures { result ≡ settings_words c }
{
    [
        c.peer_message_interval_ms,
        c.peer_message_burst as u64,
        c.peer_message_rate_bytes_per_sec,
        c.peer_message_burst_bytes,
        c.violation_ban_threshold as u64,
        c.ban_duration_ms,
        c.max_tracked_peers,
        c.max_in_flight_messages as u64,
        c.max_in_flight_bytes,
    ]
}

// Writes the settings at the place.
pub fn put_settings(output: &mut [u8], at: usize, config: PeerMessagePolicyConfig)
    requires { at + settings_size ≤ length output.old }
    ensures { output.new ≡ put output.old at (settings_bytes config) }
{
    table::rows::put_words(output, at, &words_of(config));
}
