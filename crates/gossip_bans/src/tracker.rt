// The tracker by value: how one is made, and its calls. Each call judges and finds; what follows is in `calls`.
ghost use Rattle.std.specs.Prelude.{◌≡◌};
ghost use Rattle.gossip_settings.specs.Settings.{max_tracked_peers};
ghost use Rattle.gossip_bans.specs.Calls.{MadeMeets, RecordViolationMeets, IsBannedMeets, ScoreMeets, PruneExpiredMeets, TrackedPeersMeets};

use super::answer::{BanPruned, BanScored, BanTold};
use gossip_ban_rows::room;
use gossip_ban_rows::row::ROW_WIDTH;
use gossip_settings::ban::GossipBanConfig;
use gossip_settings::violation::GossipViolation;
use pubkey::Pubkey;
use refusal::{Answered, Refusal};
use table::seek::Seek;

// Settings, how many peers have an entry at most (the limit as it was given; 0 counts as 1), and how many rows of the lent memory are
// in use.
#[derive(Clone, Copy, Debug, PartialEq, Eq)]
pub struct GossipBanTracker {
    pub config: GossipBanConfig,
    pub max_entries: u64,
    pub rows: u64,
}

impl GossipBanTracker {
    // A tracker of 1,024 peers.
    pub fn new(config: GossipBanConfig, table: &mut [u8]) -> Result<GossipBanTracker, Refusal>
        ensures { MadeMeets config max_tracked_peers table.old result table.new }
    {
        GossipBanTracker::with_max_entries(config, GossipBanConfig::MAX_TRACKED_PEERS, table)
    }

    // A tracker without an entry. Every row of the limit is zeroed. Refused with 2 where the limit is above 1,024, then with 1 where
    // the table is too short for it.
    pub fn with_max_entries(
        config: GossipBanConfig,
        max_entries: u64,
        table: &mut [u8],
    ) -> Result<GossipBanTracker, Refusal>
        ensures { MadeMeets config max_entries table.old result table.new }
    {
        if max_entries > GossipBanConfig::MAX_TRACKED_PEERS {
            return Err(Refusal::LimitTooLarge);
        }
        let limit = max_entries.max(1);
        if ((table.len() / ROW_WIDTH) as u64) < limit {
            return Err(Refusal::TooShort);
        }
        table::rows::zero_rows(table, ROW_WIDTH, 0, limit as usize);
        Ok(GossipBanTracker {
            config,
            max_entries,
            rows: 0,
        })
    }

    // Counts a violation. Yes where its sender's score is then one that bans.
    pub fn record_violation(
        self,
        table: &mut [u8],
        peer: Pubkey,
        violation: GossipViolation,
        now_ms: u64,
    ) -> BanTold
        ensures { RecordViolationMeets self table.old peer violation now_ms result table.new }
    {
        match self.sought(table, peer) {
            Seek::Unsound => Answered {
                state: self,
                answer: Err(Refusal::Unsound),
            },
            Seek::At(index) => self.violation_known(table, peer, index, violation, now_ms),
            Seek::Gap(gap) => self.violation_new(table, peer, gap, violation, now_ms),
        }
    }

    // Whether a peer is banned. An expired entry is forgotten.
    pub fn is_banned(self, table: &mut [u8], peer: Pubkey, now_ms: u64) -> BanTold
        ensures { IsBannedMeets self table.old peer now_ms result table.new }
    {
        match self.sought(table, peer) {
            Seek::Unsound => Answered {
                state: self,
                answer: Err(Refusal::Unsound),
            },
            Seek::At(index) => self.standing_known(table, peer, index, now_ms),
            Seek::Gap(_) => Answered {
                state: self,
                answer: Ok(false),
            },
        }
    }

    // A peer's score, 0 where it has no entry. An expired entry is forgotten, also where bans are off.
    pub fn score(self, table: &mut [u8], peer: Pubkey, now_ms: u64) -> BanScored
        ensures { ScoreMeets self table.old peer now_ms result table.new }
    {
        match self.sought(table, peer) {
            Seek::Unsound => Answered {
                state: self,
                answer: Err(Refusal::Unsound),
            },
            Seek::At(index) => self.score_known(table, peer, index, now_ms),
            Seek::Gap(_) => Answered {
                state: self,
                answer: Ok(0),
            },
        }
    }

    // Forgets every expired entry, also where bans are off.
    pub fn prune_expired(self, table: &mut [u8], now_ms: u64) -> BanPruned
        ensures { PruneExpiredMeets self table.old now_ms result table.new }
    {
        if !self.is_sound_in(table) {
            return Answered {
                state: self,
                answer: Err(Refusal::Unsound),
            };
        }
        let duration_ms = self.config.duration_ms;
        let left = room::prune_expired(table, self.rows as usize, duration_ms, now_ms);
        Answered {
            state: self.with_rows(left as u64),
            answer: Ok(()),
        }
    }

    // How many peers have an entry, expired ones counted. No table is lent, so the record alone is judged.
    pub fn tracked_peers(self) -> Result<u64, Refusal>
        ensures { TrackedPeersMeets self result }
    {
        if !self.is_sound() {
            return Err(Refusal::Unsound);
        }
        Ok(self.rows)
    }
}

// GossipBanConfig::build_tracker
pub fn build_tracker(config: GossipBanConfig, table: &mut [u8]) -> Result<GossipBanTracker, Refusal>
    ensures { MadeMeets config max_tracked_peers table.old result table.new }
{
    GossipBanTracker::new(config, table)
}

// GossipBanConfig::build_tracker_with_max_entries
pub fn build_tracker_with_max_entries(
    config: GossipBanConfig,
    max_entries: u64,
    table: &mut [u8],
) -> Result<GossipBanTracker, Refusal>
    ensures { MadeMeets config max_entries table.old result table.new }
{
    GossipBanTracker::with_max_entries(config, max_entries, table)
}
