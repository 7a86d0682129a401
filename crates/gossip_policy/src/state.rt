// The state by value: how one is made, and its calls. Each hands its half to gossip_bans or gossip_outbound.
ghost use Rattle.std.specs.Prelude.{◌≡◌};
ghost use Rattle.gossip_settings.specs.Settings.{gossip_default};
ghost use Rattle.gossip_outbound_state.specs.State.{exceeds};
ghost use Rattle.gossip_policy.specs.State.{fresh, outbound_of, with_tracker, with_outbound, delayed_byte_capacity};
ghost use Rattle.gossip_policy.specs.Calls.{NewMeets, RecordViolationMeets, IsBannedMeets, PruneBansMeets, AllowMeets, EstimateMeets, RemoveMeets, ReserveMeets, RefundMeets, BypassMeets};

use super::answer::{GossipPruned, GossipReserved, GossipSettled, GossipTold};
use bucket_bytes::bytes::ByteTokenBucket;
use bucket_terms::limit::ByteRateLimitConfig;
use gossip_bans::tracker::GossipBanTracker;
use gossip_outbound::calls;
use gossip_outbound_state::state::Outbound;
use gossip_settings::ban::GossipBanConfig;
use gossip_settings::policy::GossipPolicyConfig;
use gossip_settings::violation::GossipViolation;
use pubkey::Pubkey;
use refusal::{Answered, Refusal};

// The bans; what all peers together may be sent; how many rows of the outbound table are in use; the settings of the delay queue and of
// each peer's bucket.
#[derive(Clone, Copy, Debug, PartialEq, Eq)]
pub struct GossipPolicyState {
    pub ban_tracker: GossipBanTracker,
    pub global_outbound: ByteTokenBucket,
    pub rows: u64,
    pub outbound_delay_queue_capacity: u64,
    pub peer_outbound_config: ByteRateLimitConfig,
}

// What the settings of a bucket leave for messages that wait.
fn capacity_of(config: ByteRateLimitConfig) -> Option<u64>
    ensures { result ≡ delayed_byte_capacity config }
{
    (!config.is_disabled()).then_some(config.burst_bytes)
}

impl GossipPolicyState {
    // How many rows each table has at least, one a peer, and how many bytes: in both tables a row has as many.
    pub const TABLE_ROWS: usize = GossipBanConfig::MAX_TRACKED_PEERS as usize;

    pub const TABLE_BYTES: usize = gossip_ban_rows::row::ROW_WIDTH * GossipPolicyState::TABLE_ROWS;

    // No peer banned, every bucket full.
    fn fresh(config: GossipPolicyConfig) -> GossipPolicyState
        ensures { result ≡ fresh config }
    {
        GossipPolicyState {
            ban_tracker: GossipBanTracker {
                config: config.ban,
                max_entries: GossipBanConfig::MAX_TRACKED_PEERS,
                rows: 0,
            },
            global_outbound: ByteTokenBucket::new(config.outbound_global),
            rows: 0,
            outbound_delay_queue_capacity: config.outbound_delay_queue_capacity,
            peer_outbound_config: config.outbound_peer,
        }
    }

    // The outbound half.
    fn outbound(self) -> Outbound
        ensures { result ≡ outbound_of self }
    {
        Outbound {
            global_outbound: self.global_outbound,
            peer_outbound_config: self.peer_outbound_config,
            rows: self.rows,
        }
    }

    fn with_tracker(self, ban_tracker: GossipBanTracker) -> GossipPolicyState
        ensures { result ≡ with_tracker self ban_tracker }
    {
        GossipPolicyState {
            ban_tracker,
            ..self
        }
    }

    // The settings of the peers' buckets stay.
    fn with_outbound(self, outbound: Outbound) -> GossipPolicyState
        ensures { result ≡ with_outbound self outbound }
    {
        GossipPolicyState {
            global_outbound: outbound.global_outbound,
            rows: outbound.rows,
            ..self
        }
    }

    // A state without a row. Both tables are judged before the rows of each are zeroed. Refused with 1 where one is shorter.
    pub fn new(
        config: GossipPolicyConfig,
        ban_table: &mut [u8],
        outbound_table: &mut [u8],
    ) -> GossipSettled
        ensures { NewMeets config ban_table.old outbound_table.old result ban_table.new outbound_table.new }
    {
        let state = GossipPolicyState::fresh(config);
        if ban_table.len() < GossipPolicyState::TABLE_BYTES {
            return Answered {
                state,
                answer: Err(Refusal::TooShort),
            };
        }
        if outbound_table.len() < GossipPolicyState::TABLE_BYTES {
            return Answered {
                state,
                answer: Err(Refusal::TooShort),
            };
        }
        let rows = GossipPolicyState::TABLE_ROWS;
        table::rows::zero_rows(ban_table, gossip_ban_rows::row::ROW_WIDTH, 0, rows);
        table::rows::zero_rows(
            outbound_table,
            gossip_outbound_rows::row::ROW_WIDTH,
            0,
            rows,
        );
        Answered {
            state,
            answer: Ok(()),
        }
    }

    pub fn default(ban_table: &mut [u8], outbound_table: &mut [u8]) -> GossipSettled
        ensures { NewMeets gossip_default ban_table.old outbound_table.old result ban_table.new outbound_table.new }
    {
        GossipPolicyState::new(GossipPolicyConfig::default(), ban_table, outbound_table)
    }

    // Counts a violation. Yes where its sender's score is then one that bans.
    pub fn record_violation(
        self,
        ban_table: &mut [u8],
        peer: Pubkey,
        violation: GossipViolation,
        now_ms: u64,
    ) -> GossipTold
        ensures { RecordViolationMeets self ban_table.old peer violation now_ms result ban_table.new }
    {
        self.ban_tracker
            .record_violation(ban_table, peer, violation, now_ms)
            .map_state(|tracker| self.with_tracker(tracker))
    }

    // Whether a peer is banned. An expired entry is forgotten.
    pub fn is_banned(self, ban_table: &mut [u8], peer: Pubkey, now_ms: u64) -> GossipTold
        ensures { IsBannedMeets self ban_table.old peer now_ms result ban_table.new }
    {
        self.ban_tracker
            .is_banned(ban_table, peer, now_ms)
            .map_state(|tracker| self.with_tracker(tracker))
    }

    // Forgets every expired entry of the bans.
    pub fn prune_bans(self, ban_table: &mut [u8], now_ms: u64) -> GossipPruned
        ensures { PruneBansMeets self ban_table.old now_ms result ban_table.new }
    {
        self.ban_tracker
            .prune_expired(ban_table, now_ms)
            .map_state(|tracker| self.with_tracker(tracker))
    }

    // Whether a message may be sent now. It is charged to both buckets only where both have the bytes.
    pub fn allow_outbound_message(
        self,
        outbound_table: &mut [u8],
        peer: Pubkey,
        bytes: u64,
        now_ms: u64,
    ) -> GossipTold
        ensures { AllowMeets self outbound_table.old peer bytes now_ms result outbound_table.new }
    {
        let outbound = self.outbound();
        let r = calls::allow_outbound_message(outbound, outbound_table, peer, bytes, now_ms);
        r.map_state(|outbound| self.with_outbound(outbound))
    }

    // How long a message would have to wait. Nothing changes.
    pub fn estimate_outbound_message_delay(
        self,
        outbound_table: &[u8],
        peer: Pubkey,
        bytes: u64,
        now_ms: u64,
    ) -> Result<u64, Refusal>
        ensures { EstimateMeets self outbound_table.now peer bytes now_ms result }
    {
        calls::estimate_outbound_message_delay(self.outbound(), outbound_table, peer, bytes, now_ms)
    }

    // Forgets a peer's bucket.
    pub fn remove_outbound_peer(self, outbound_table: &mut [u8], peer: Pubkey) -> GossipSettled
        ensures { RemoveMeets self outbound_table.old peer result outbound_table.new }
    {
        let removed = calls::remove_outbound_peer(self.outbound(), outbound_table, peer);
        removed.map_state(|outbound| self.with_outbound(outbound))
    }

    // Charges a message to both buckets in any case, and says how long its sender must wait.
    pub fn reserve_outbound_message(
        self,
        outbound_table: &mut [u8],
        peer: Pubkey,
        bytes: u64,
        now_ms: u64,
    ) -> GossipReserved
        ensures { ReserveMeets self outbound_table.old peer bytes now_ms result outbound_table.new }
    {
        let outbound = self.outbound();
        let r = calls::reserve_outbound_message(outbound, outbound_table, peer, bytes, now_ms);
        r.map_state(|outbound| self.with_outbound(outbound))
    }

    // Gives the bytes of a message back that was not sent after all.
    pub fn refund_outbound_message(
        self,
        outbound_table: &mut [u8],
        peer: Pubkey,
        bytes: u64,
        now_ms: u64,
    ) -> GossipSettled
        ensures { RefundMeets self outbound_table.old peer bytes now_ms result outbound_table.new }
    {
        let outbound = self.outbound();
        let r = calls::refund_outbound_message(outbound, outbound_table, peer, bytes, now_ms);
        r.map_state(|outbound| self.with_outbound(outbound))
    }

    // Whether a message that is more than a full bucket has may be sent all the same: where neither bucket is in debt. Nothing changes.
    pub fn should_bypass_oversized_outbound_message(
        self,
        outbound_table: &[u8],
        peer: Pubkey,
        bytes: u64,
        now_ms: u64,
    ) -> Result<bool, Refusal>
        ensures { BypassMeets self outbound_table.now peer bytes now_ms result }
    {
        calls::should_bypass_oversized_outbound_message(
            self.outbound(),
            outbound_table,
            peer,
            bytes,
            now_ms,
        )
    }

    // Whether a message is more than a full bucket has, of either limit that is on: it could never be sent by waiting.
    pub fn outbound_message_exceeds_single_message_capacity(self, bytes: u64) -> bool
        ensures { result ≡ exceeds (outbound_of self) bytes }
    {
        calls::outbound_message_exceeds_single_message_capacity(self.outbound(), bytes)
    }

    // How many messages may wait for one peer.
    pub fn outbound_delay_queue_capacity(self) -> u64
        ensures { result ≡ self.outbound_delay_queue_capacity }
    {
        self.outbound_delay_queue_capacity
    }

    // How many bytes may wait for all peers together.
    pub fn outbound_global_delayed_byte_capacity(self) -> Option<u64>
        ensures { result ≡ delayed_byte_capacity self.global_outbound.config }
    {
        capacity_of(self.global_outbound.config)
    }

    // How many bytes may wait for one peer.
    pub fn outbound_peer_delayed_byte_capacity(self) -> Option<u64>
        ensures { result ≡ delayed_byte_capacity self.peer_outbound_config }
    {
        capacity_of(self.peer_outbound_config)
    }
}
