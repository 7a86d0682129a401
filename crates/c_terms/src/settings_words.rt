// The peers' settings in the words that cross: longs interval, rate, burst_bytes, ban_duration, max_tracked, max_bytes; shorts burst,
// threshold, max_messages. Further words may stand behind them; a word that is missing is 0.
ghost use Rattle.std.specs.Prelude.{◌≡◌};
ghost use Rattle.c_terms.specs.SettingsWords.{settings_of, settings_longs, settings_shorts};

use peer_settings::config::PeerMessagePolicyConfig;

pub fn config_of(longs: &[u64], shorts: &[u32]) -> PeerMessagePolicyConfig
    ensures { result ≡ settings_of longs.now shorts.now }
{
    let long = |i: usize| longs.get(i).copied().unwrap_or(0);
    let short = |i: usize| shorts.get(i).copied().unwrap_or(0);
    PeerMessagePolicyConfig {
        peer_message_interval_ms: long(0),
        peer_message_burst: short(0),
        peer_message_rate_bytes_per_sec: long(1),
        peer_message_burst_bytes: long(2),
        violation_ban_threshold: short(1),
        ban_duration_ms: long(3),
        max_tracked_peers: long(4),
        max_in_flight_messages: short(2),
        max_in_flight_bytes: long(5),
    }
}

pub fn longs_of(c: PeerMessagePolicyConfig) -> [u64; 6]
    ensures { result ≡ settings_longs c }
{
    [
        c.peer_message_interval_ms,
        c.peer_message_rate_bytes_per_sec,
        c.peer_message_burst_bytes,
        c.ban_duration_ms,
        c.max_tracked_peers,
        c.max_in_flight_bytes,
    ]
}

pub fn shorts_of(c: PeerMessagePolicyConfig) -> [u32; 3]
    ensures { result ≡ settings_shorts c }
{
    [
        c.peer_message_burst,
        c.violation_ban_threshold,
        c.max_in_flight_messages,
    ]
}
