// What the records drive: a policy, how many bytes of the table are lent to it, and the settings that the next one is made with.
use peer_message_policy::policy::PeerMessagePolicy;
use peer_settings::config::PeerMessagePolicyConfig;
use refusal::Refusal;
use replay::line::Line;

#[derive(Clone, Copy)]
pub(crate) struct Held {
    pub policy: PeerMessagePolicy,
    pub next: PeerMessagePolicyConfig,
    pub lent: usize,
}

impl Held {
    pub(crate) fn nothing() -> Held {
        let config = PeerMessagePolicyConfig::with_limits(0, 0, 0);
        Held {
            policy: PeerMessagePolicy::fresh(config),
            next: config,
            lent: 0,
        }
    }

    // Holds the policy that a call left, and says what the call answered.
    pub(crate) fn left(&mut self, policy: PeerMessagePolicy, text: &[u8]) -> Line {
        self.policy = policy;
        says(text)
    }

    // The same of a call that answers nothing else.
    pub(crate) fn changed(&mut self, answer: Result<PeerMessagePolicy, Refusal>) -> Line {
        match answer {
            Ok(policy) => self.left(policy, b"-"),
            Err(n) => refused(n),
        }
    }
}

// The beginning of the line that answers a record.
pub(crate) fn says(text: &[u8]) -> Line {
    Line::empty().text(text)
}

pub(crate) fn refused(n: Refusal) -> Line {
    Line::empty().refusal(n.number())
}
