// A policy from its words, and its words again.
ghost use Rattle.std.specs.Prelude.{◌≡◌};
ghost use Rattle.c_words.specs.Words.{policy_of, config_of, longs_of, shorts_of, Leaves};

use c_terms::settings_words;
use peer_message_policy::policy::PeerMessagePolicy;
use peer_settings::config::PeerMessagePolicyConfig;
use peer_state::ingress::FiberIngressBudget;
use refusal::Refusal;

pub fn config_of(longs: &[u64; 8], shorts: &[u32; 4]) -> PeerMessagePolicyConfig
    ensures { result ≡ config_of longs.now shorts.now }
{
    settings_words::config_of(longs, shorts)
}

pub fn policy_of(longs: &[u64; 8], shorts: &[u32; 4]) -> PeerMessagePolicy
    ensures { result ≡ policy_of longs.now shorts.now }
{
    PeerMessagePolicy {
        config: config_of(longs, shorts),
        ingress: FiberIngressBudget {
            in_flight_messages: shorts[3],
            in_flight_bytes: longs[6],
        },
        rows: longs[7],
    }
}

fn longs_of(p: PeerMessagePolicy) -> [u64; 8]
    ensures { result ≡ longs_of p }
{
    let [interval, rate, burst_bytes, duration, tracked, bytes] = settings_words::longs_of(
        p.config,
    );
    [
        interval,
        rate,
        burst_bytes,
        duration,
        tracked,
        bytes,
        p.ingress.in_flight_bytes,
        p.rows,
    ]
}

fn shorts_of(p: PeerMessagePolicy) -> [u32; 4]
    ensures { result ≡ shorts_of p }
{
    let [burst, threshold, messages] = settings_words::shorts_of(p.config);
    [burst, threshold, messages, p.ingress.in_flight_messages]
}

// Leaves the words of the policy that a call answered with, or as they are on a refusal; the number is handed on.
pub fn leave(
    longs: &mut [u64; 8],
    shorts: &mut [u32; 4],
    numbered: Result<(u32, PeerMessagePolicy), Refusal>,
) -> u32
    ensures { Leaves numbered longs.old shorts.old result longs.new shorts.new }
{
    match numbered {
        Ok((number, p)) => {
            *longs = longs_of(p);
            *shorts = shorts_of(p);
            number
        }
        Err(refusal) => refusal.number(),
    }
}
