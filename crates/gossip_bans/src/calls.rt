// What the calls do once the tracker is judged and the peer is found, or its place: decide, then write.
ghost use Rattle.gossip_bans.specs.Calls.{RecordViolationMeets, IsBannedMeets, ScoreMeets};
ghost use Rattle.gossip_bans.specs.Private.{Known, Unknown};

use super::answer::{BanScored, BanTold};
use super::tracker::GossipBanTracker;
use gossip_ban_rows::entry;
use gossip_ban_rows::entry::GossipBanEntry;
use gossip_ban_rows::row::{ROW_WIDTH, entry_at};
use gossip_settings::violation::GossipViolation;
use pubkey::Pubkey;
use refusal::Answered;

impl GossipBanTracker {
    // An expired entry is made anew in its place, which leaves every other row where it is.
    pub(crate) fn violation_known(
        self,
        table: &mut [u8],
        peer: Pubkey,
        index: usize,
        violation: GossipViolation,
        now_ms: u64,
    ) -> BanTold
        requires { Known self table.old peer.bytes index }
        ensures { RecordViolationMeets self table.old peer violation now_ms result table.new }
    {
        if self.config.is_disabled() {
            return Answered {
                state: self,
                answer: Ok(false),
            };
        }
        let found = entry_at(table, ROW_WIDTH * index);
        let kept = entry::unexpired_or_default(found, self.config.duration_ms, now_ms);
        let raised = entry::raised(kept, violation.score(), now_ms);
        let e = entry::banned_if_reached(self.config, raised, now_ms);
        Answered {
            state: self.store_known(table, peer, index, e),
            answer: Ok(entry::reaches(self.config, raised)),
        }
    }

    pub(crate) fn violation_new(
        self,
        table: &mut [u8],
        peer: Pubkey,
        gap: usize,
        violation: GossipViolation,
        now_ms: u64,
    ) -> BanTold
        requires { Unknown self table.old peer.bytes gap }
        ensures { RecordViolationMeets self table.old peer violation now_ms result table.new }
    {
        if self.config.is_disabled() {
            return Answered {
                state: self,
                answer: Ok(false),
            };
        }
        let raised = entry::raised(GossipBanEntry::default(), violation.score(), now_ms);
        let e = entry::banned_if_reached(self.config, raised, now_ms);
        Answered {
            state: self.store_new(table, peer, gap, e, now_ms),
            answer: Ok(entry::reaches(self.config, raised)),
        }
    }

    pub(crate) fn standing_known(
        self,
        table: &mut [u8],
        peer: Pubkey,
        index: usize,
        now_ms: u64,
    ) -> BanTold
        requires { Known self table.old peer.bytes index }
        ensures { IsBannedMeets self table.old peer now_ms result table.new }
    {
        if self.config.is_disabled() {
            return Answered {
                state: self,
                answer: Ok(false),
            };
        }
        let e = entry_at(table, ROW_WIDTH * index);
        if e.is_expired(self.config.duration_ms, now_ms) {
            return Answered {
                state: self.drop_known(table, peer, index),
                answer: Ok(false),
            };
        }
        Answered {
            state: self,
            answer: Ok(e.is_currently_banned(now_ms)),
        }
    }

    pub(crate) fn score_known(
        self,
        table: &mut [u8],
        peer: Pubkey,
        index: usize,
        now_ms: u64,
    ) -> BanScored
        requires { Known self table.old peer.bytes index }
        ensures { ScoreMeets self table.old peer now_ms result table.new }
    {
        let e = entry_at(table, ROW_WIDTH * index);
        if e.is_expired(self.config.duration_ms, now_ms) {
            return Answered {
                state: self.drop_known(table, peer, index),
                answer: Ok(0),
            };
        }
        Answered {
            state: self,
            answer: Ok(e.score as u32),
        }
    }
}
