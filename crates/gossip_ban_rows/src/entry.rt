// What is kept of one peer: the four numbers of its row, behind its key.
//
// In a row every number is a u64, so a score handed in may be anything: no function here asks for a sound entry.
ghost use Rattle.std.specs.Prelude.{◌≡◌};
ghost use Rattle.gossip_ban_rows.specs.Entry.{entry_default, expires_at_ms, is_expired, is_currently_banned, entry_sound};
ghost use Rattle.gossip_ban_rows.specs.Entry.{raised as raisedBy, reaches as reachedBy, banned_if_reached};
ghost use Rattle.gossip_ban_rows.specs.Private.{unexpired_or_default};

use gossip_settings::ban::GossipBanConfig;

// `mark` and `until_ms` are the Rust's `banned_until_ms: Option<u64>`: a mark, 1 where there is a ban, beside its end.
#[derive(Clone, Copy, Debug, PartialEq, Eq)]
pub struct GossipBanEntry {
    pub score: u64,
    pub mark: u64,
    pub until_ms: u64,
    pub last_updated_ms: u64,
}

impl GossipBanEntry {
    // No violation yet.
    pub fn default() -> GossipBanEntry
        ensures { result ≡ entry_default }
    {
        GossipBanEntry {
            score: 0,
            mark: 0,
            until_ms: 0,
            last_updated_ms: 0,
        }
    }

    fn expires_at_ms(self, duration_ms: u64) -> u64
        ensures { result ≡ expires_at_ms self duration_ms }
    {
        self.last_updated_ms.saturating_add(duration_ms)
    }

    // Whether the entry is to be forgotten: as long as a ban after its last update, and from then on.
    pub fn is_expired(self, duration_ms: u64, now_ms: u64) -> bool
        ensures { result ≡ is_expired self duration_ms now_ms }
    {
        self.expires_at_ms(duration_ms) <= now_ms
    }

    // Whether a ban is live: until its end, and no longer at it.
    pub fn is_currently_banned(self, now_ms: u64) -> bool
        ensures { result ≡ is_currently_banned self now_ms }
    {
        self.mark == 1 && now_ms < self.until_ms
    }

    // The entry's rules: a score within 32 bits, a mark of 0 or 1, and no end without a ban.
    #[tactic(auto, unfolding(crate::specs::Entry::entry_sound))]
    pub fn is_sound(self) -> bool
        ensures { result ≡ entry_sound self }
    {
        self.score <= u32::MAX as u64 && (self.mark == 1 || (self.mark == 0 && self.until_ms == 0))
    }
}

// The entry that a violation adds to: as it is, or a new one where it is expired.
#[tactic(auto, unfolding(crate::specs::Private::unexpired_or_default))]
pub fn unexpired_or_default(e: GossipBanEntry, duration_ms: u64, now_ms: u64) -> GossipBanEntry
    ensures { result ≡ unexpired_or_default e duration_ms now_ms }
{
    if e.is_expired(duration_ms, now_ms) {
        GossipBanEntry::default()
    } else {
        e
    }
}

// The entry with some points more, updated now.
pub fn raised(e: GossipBanEntry, points: u32, now_ms: u64) -> GossipBanEntry
    ensures { result ≡ raisedBy e points now_ms }
{
    GossipBanEntry {
        score: e.score.saturating_add(points as u64).min(u32::MAX as u64),
        last_updated_ms: now_ms,
        ..e
    }
}

// Whether the score is one that bans.
pub fn reaches(config: GossipBanConfig, e: GossipBanEntry) -> bool
    ensures { result ≡ reachedBy config e }
{
    config.threshold as u64 <= e.score
}

// The entry with a ban from now on where its score is one that bans, else as it is.
#[tactic(auto, unfolding(crate::specs::Entry::banned_if_reached))]
pub fn banned_if_reached(config: GossipBanConfig, e: GossipBanEntry, now_ms: u64) -> GossipBanEntry
    ensures { result ≡ banned_if_reached config e now_ms }
{
    if !reaches(config, e) {
        return e;
    }
    GossipBanEntry {
        mark: 1,
        until_ms: now_ms.saturating_add(config.duration_ms),
        ..e
    }
}
