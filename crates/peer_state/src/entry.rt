// What is kept of one peer: the eleven numbers of its row, behind its key.
//
// In a row every number is a u64, so a count handed in may be anything: no function here asks for a sound entry.
ghost use Rattle.std.specs.Prelude.{◌≡◌};
ghost use Rattle.peer_state.specs.Entry.{window, window_expire, window_counted, window_record, entry_new, entry_is_banned, entry_is_spent};
ghost use Rattle.peer_state.specs.Entry.{entry_ban, entry_expire_windows, entry_used};
ghost use Rattle.peer_state.specs.Private.{entry_to_update, same_counts};

use peer_settings::config::PeerMessagePolicyConfig;

// What a bucket holds; its settings are the policy's.
#[derive(Clone, Copy, Debug, PartialEq, Eq)]
pub struct Level {
    pub available: u64,
    pub last_refill_ms: u64,
}

// How many violations since when.
#[derive(Clone, Copy, Debug, PartialEq, Eq)]
pub struct ViolationWindow {
    pub count: u64,
    pub started_at_ms: u64,
}

// The Rust's `banned_until_ms: Option<u64>`: a mark, 1 where there is a ban, beside its end.
// Kept: no Option, since a row and a snapshot hold any u64 as a mark, and `entry_sound` and their layouts speak of it.
#[derive(Clone, Copy, Debug, PartialEq, Eq)]
pub struct Ban {
    pub mark: u64,
    pub until_ms: u64,
}

#[derive(Clone, Copy, Debug, PartialEq, Eq)]
pub struct PeerMessagePolicyEntry {
    pub messages: Level,
    pub bytes: Level,
    pub rate_limit_violations: ViolationWindow,
    pub invalid_messages: ViolationWindow,
    pub ban: Ban,
    pub last_used_ms: u64,
}

impl ViolationWindow {
    // No violation yet.
    pub fn new(now_ms: u64) -> ViolationWindow
        ensures { result ≡ window 0 now_ms }
    {
        ViolationWindow {
            count: 0,
            started_at_ms: now_ms,
        }
    }

    // No violation is remembered longer than the duration of a ban.
    #[tactic(auto, unfolding(crate::specs::Entry::window_expire))]
    pub fn expire(self, now_ms: u64, duration_ms: u64) -> ViolationWindow
        ensures { result ≡ window_expire self now_ms duration_ms }
    {
        if self.count > 0 && now_ms.saturating_sub(self.started_at_ms) >= duration_ms {
            return ViolationWindow::new(now_ms);
        }
        self
    }

    // The window with one violation more.
    pub fn record(self, now_ms: u64, duration_ms: u64) -> ViolationWindow
        ensures { result ≡ window_record self now_ms duration_ms }
    {
        self.expire(now_ms, duration_ms).counted(now_ms)
    }

    // The count stops at the largest u32, as the Rust's does. The first violation starts the window.
    #[tactic(auto, unfolding(crate::specs::Entry::window_counted))]
    fn counted(self, now_ms: u64) -> ViolationWindow
        ensures { result ≡ window_counted self now_ms }
    {
        ViolationWindow {
            count: self.count.saturating_add(1).min(4_294_967_295),
            started_at_ms: if self.count == 0 {
                now_ms
            } else {
                self.started_at_ms
            },
        }
    }
}

impl PeerMessagePolicyEntry {
    // A peer that has just come: both buckets full.
    #[tactic(auto, unfolding(crate::specs::Entry::entry_new))]
    pub fn new(now_ms: u64, config: PeerMessagePolicyConfig) -> PeerMessagePolicyEntry
        ensures { result ≡ entry_new config now_ms }
    {
        PeerMessagePolicyEntry {
            messages: Level {
                available: config.peer_message_burst as u64,
                last_refill_ms: 0,
            },
            bytes: Level {
                available: config.peer_message_burst_bytes,
                last_refill_ms: 0,
            },
            rate_limit_violations: ViolationWindow::new(now_ms),
            invalid_messages: ViolationWindow::new(now_ms),
            ban: Ban {
                mark: 0,
                until_ms: 0,
            },
            last_used_ms: now_ms,
        }
    }

    pub fn is_banned(self, now_ms: u64) -> bool
        ensures { result ≡ entry_is_banned self now_ms }
    {
        self.ban.mark == 1 && now_ms < self.ban.until_ms
    }

    // Whether there is a ban, and it is over.
    pub fn is_spent(self, now_ms: u64) -> bool
        ensures { result ≡ entry_is_spent self now_ms }
    {
        self.ban.mark == 1 && self.ban.until_ms <= now_ms
    }

    #[tactic(auto, unfolding(crate::specs::Entry::entry_ban))]
    pub fn ban(self, now_ms: u64, duration_ms: u64) -> PeerMessagePolicyEntry
        ensures { result ≡ entry_ban self now_ms duration_ms }
    {
        PeerMessagePolicyEntry {
            ban: Ban {
                mark: 1,
                until_ms: now_ms.saturating_add(duration_ms),
            },
            last_used_ms: now_ms,
            ..self
        }
    }

    #[tactic(auto, unfolding(crate::specs::Entry::entry_expire_windows))]
    pub fn expire_violation_windows(self, now_ms: u64, duration_ms: u64) -> PeerMessagePolicyEntry
        ensures { result ≡ entry_expire_windows self now_ms duration_ms }
    {
        PeerMessagePolicyEntry {
            rate_limit_violations: self.rate_limit_violations.expire(now_ms, duration_ms),
            invalid_messages: self.invalid_messages.expire(now_ms, duration_ms),
            ..self
        }
    }

    // The entry as a call finds it that counts as a use: its windows expired, last used now.
    #[tactic(auto, unfolding(crate::specs::Entry::entry_used, crate::specs::Entry::entry_expire_windows))]
    pub fn used(self, now_ms: u64, duration_ms: u64) -> PeerMessagePolicyEntry
        ensures { result ≡ entry_used self now_ms duration_ms }
    {
        PeerMessagePolicyEntry {
            last_used_ms: now_ms,
            ..self.expire_violation_windows(now_ms, duration_ms)
        }
    }

    // The entry that a known peer's message is decided on: a spent ban drops it, and it is made anew.
    pub fn to_update(self, config: PeerMessagePolicyConfig, now_ms: u64) -> PeerMessagePolicyEntry
        ensures { result ≡ entry_to_update config self now_ms }
    {
        if self.is_spent(now_ms) {
            return PeerMessagePolicyEntry::new(now_ms, config);
        }
        self
    }

    // Whether two entries count as many violations, of each kind.
    pub fn same_counts(self, other: PeerMessagePolicyEntry) -> bool
        ensures { result ≡ same_counts self other }
    {
        self.rate_limit_violations.count == other.rate_limit_violations.count
            && self.invalid_messages.count == other.invalid_messages.count
    }

    // The entry of a peer that has gone: its windows expire, and its last use stays.
    pub fn left(self, config: PeerMessagePolicyConfig, now_ms: u64) -> PeerMessagePolicyEntry
        ensures { result ≡ entry_expire_windows self now_ms config.ban_duration_ms }
    {
        self.expire_violation_windows(now_ms, config.ban_duration_ms)
    }
}
