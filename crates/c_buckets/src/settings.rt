// The peers' settings: 0 leaves the defaults, 1 the defaults but for the words' number of tracked peers and ceiling, 2 asks whether
// the message limit is off, 3 whether bans are, 4 whether the ceiling is.
ghost use Rattle.std.specs.Prelude.{◌≡◌};
ghost use Rattle.c_buckets.specs.Settings.{settings_operation, settings_done, SettingsLeft, SettingsExported};

use c_terms::reply::Reply;
use c_terms::{reply, settings_words};
use peer_settings::config::PeerMessagePolicyConfig;
use refusal::Answered;

#[derive(Clone, Copy, Debug, PartialEq, Eq)]
pub enum SettingsOperation {
    Default,
    WithLimits,
    MessageLimitDisabled,
    BanDisabled,
    IsUnlimited,
    Unknown,
}

impl From<u32> for SettingsOperation {
    ghost from_gives = { λ n o. o ≡ settings_operation n };

    fn from(n: u32) -> SettingsOperation {
        match n {
            0 => SettingsOperation::Default,
            1 => SettingsOperation::WithLimits,
            2 => SettingsOperation::MessageLimitDisabled,
            3 => SettingsOperation::BanDisabled,
            4 => SettingsOperation::IsUnlimited,
            _ => SettingsOperation::Unknown,
        }
    }
}

// The settings after a call, and what the call said.
pub type SettingsDone = Answered<PeerMessagePolicyConfig, Reply>;

fn done(operation: SettingsOperation, c: PeerMessagePolicyConfig) -> SettingsDone
    ensures { result ≡ settings_done operation c }
{
    match operation {
        SettingsOperation::Default => Answered {
            state: PeerMessagePolicyConfig::default(),
            answer: Reply::plain(reply::DONE),
        },
        SettingsOperation::WithLimits => Answered {
            state: PeerMessagePolicyConfig::with_limits(
                c.max_tracked_peers,
                c.max_in_flight_messages,
                c.max_in_flight_bytes,
            ),
            answer: Reply::plain(reply::DONE),
        },
        SettingsOperation::MessageLimitDisabled => Answered {
            state: c,
            answer: c.message_limit_disabled().into(),
        },
        SettingsOperation::BanDisabled => Answered {
            state: c,
            answer: c.ban_disabled().into(),
        },
        SettingsOperation::IsUnlimited => Answered {
            state: c,
            answer: c.is_unlimited().into(),
        },
        SettingsOperation::Unknown => Answered {
            state: c,
            answer: Reply::plain(reply::UNKNOWN),
        },
    }
}

// Kept: which words a state has is its own, so one function for all would be no shorter. On a refusal nothing is left.
fn leave(longs: &mut [u64; 6], shorts: &mut [u32; 3], d: SettingsDone) -> u32
    ensures { SettingsLeft d longs.old shorts.old result longs.new shorts.new }
{
    if !d.answer.is_refusal() {
        *longs = settings_words::longs_of(d.state);
        *shorts = settings_words::shorts_of(d.state);
    }
    d.answer.number
}

#[unsafe(no_mangle)]
pub extern "C" fn uglezmir_settings(
    operation: u32,
    longs: &mut [u64; 6],
    shorts: &mut [u32; 3],
) -> u32
    ensures { SettingsExported operation longs.old shorts.old result longs.new shorts.new }
{
    let config = settings_words::config_of(longs, shorts);
    let d = done(operation.into(), config);
    leave(longs, shorts, d)
}
