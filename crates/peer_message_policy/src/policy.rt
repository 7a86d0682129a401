// The policy by value: how one is made, and its calls. Each call judges and finds; what follows is in `calls`.
ghost use Rattle.std.specs.Prelude.{◌≡◌, cond, Ok, Err};
ghost use Rattle.refusal.specs.declared.Refusal.TheVariants as Refusal;
ghost use Rattle.peer_settings.specs.Config.{config_default, config_with_limits};
ghost use Rattle.peer_message_policy.specs.Policy.{policy_sound, sound};
ghost use Rattle.peer_message_policy.specs.Calls.{fresh, policy_with, NewMeets, AdmitMeets, RecordInvalidMeets, IsBannedMeets, OnDisconnectedMeets, ReleaseIngressMeets, InFlightMeets, HeldTimeMeets};

use super::answer::{Admission, Invalid, Standing};
use peer_rows::row::ROW_WIDTH;
use peer_settings::config::PeerMessagePolicyConfig;
use peer_state::ingress::FiberIngressBudget;
use peer_verdict::verdict::{Cause, InvalidCause};
use pubkey::{PUBKEY_SIZE, Pubkey};
use refusal::Refusal;
use table::seek::Seek;

// Settings, the load in flight over all peers, and how many rows of the lent memory are in use.
#[derive(Clone, Copy, Debug, PartialEq, Eq)]
pub struct PeerMessagePolicy {
    pub config: PeerMessagePolicyConfig,
    pub ingress: FiberIngressBudget,
    pub rows: u64,
}

impl PeerMessagePolicy {
    // A policy with no peer and nothing in flight. Every row of the limit is zeroed. Refused with 2 where the limit is above
    // 1,024, then with 1 where the table is too short for it.
    pub fn new(
        config: PeerMessagePolicyConfig,
        table: &mut [u8],
    ) -> Result<PeerMessagePolicy, Refusal>
        ensures { NewMeets config table.old result table.new }
    {
        if config.max_tracked_peers > PeerMessagePolicyConfig::MAX_ROWS {
            return Err(Refusal::LimitTooLarge);
        }
        let limit = config.limit();
        if ((table.len() / ROW_WIDTH) as u64) < limit {
            return Err(Refusal::TooShort);
        }
        table::rows::zero_rows(table, ROW_WIDTH, 0, limit as usize);
        Ok(PeerMessagePolicy::fresh(config))
    }

    // The record alone of a policy with no peer and nothing in flight.
    pub fn fresh(config: PeerMessagePolicyConfig) -> PeerMessagePolicy
        ensures { result ≡ fresh config }
    {
        PeerMessagePolicy {
            config,
            ingress: FiberIngressBudget {
                in_flight_messages: 0,
                in_flight_bytes: 0,
            },
            rows: 0,
        }
    }

    // The record as a call leaves it: the settings stay.
    pub(crate) fn after(self, ingress: FiberIngressBudget, rows: u64) -> PeerMessagePolicy
        ensures { result ≡ policy_with self ingress rows }
    {
        PeerMessagePolicy {
            ingress,
            rows,
            ..self
        }
    }

    // A policy with the default settings.
    pub fn default(table: &mut [u8]) -> Result<PeerMessagePolicy, Refusal>
        ensures { NewMeets config_default table.old result table.new }
    {
        PeerMessagePolicy::new(PeerMessagePolicyConfig::default(), table)
    }

    // A policy with the default settings but for these limits.
    pub fn with_limits(
        max_entries: u64,
        max_in_flight_messages: u32,
        max_in_flight_bytes: u64,
        table: &mut [u8],
    ) -> Result<PeerMessagePolicy, Refusal>
        ensures { NewMeets (config_with_limits max_entries max_in_flight_messages max_in_flight_bytes) table.old result table.new }
    {
        let config = PeerMessagePolicyConfig::with_limits(
            max_entries,
            max_in_flight_messages,
            max_in_flight_bytes,
        );
        PeerMessagePolicy::new(config, table)
    }

    // Judges one inbound message, and says why: where several limits run short, the first of messages, bytes and ceiling is named.
    // Refused with 3, then with 4 where it would be an Allow and the numbers in flight have no room.
    pub fn admit(self, table: &mut [u8], peer: Pubkey, bytes: u64, now_ms: u64) -> Admission
        ensures { AdmitMeets self table.old peer bytes now_ms result table.new }
    {
        let found = self.sought(table, peer);
        if let Seek::Unsound = found {
            return Admission {
                cause: Cause::Refused(Refusal::Unsound),
                policy: self,
            };
        }
        self.admit_found(table, peer, found, bytes, now_ms)
    }

    // Counts a message that turned out to be invalid.
    pub fn record_invalid(self, table: &mut [u8], peer: Pubkey, now_ms: u64) -> Invalid
        ensures { RecordInvalidMeets self table.old peer now_ms result table.new }
    {
        let found = self.sought(table, peer);
        if let Seek::Unsound = found {
            return Invalid {
                cause: InvalidCause::Refused(Refusal::Unsound),
                policy: self,
            };
        }
        self.invalid_found(table, peer, found, now_ms)
    }

    // Whether a peer is banned. A ban that is over is forgotten, with its peer's row.
    pub fn is_banned(self, table: &mut [u8], peer: Pubkey, now_ms: u64) -> Standing
        ensures { IsBannedMeets self table.old peer now_ms result table.new }
    {
        match self.sought(table, peer) {
            Seek::Unsound => Standing::Refused(Refusal::Unsound),
            Seek::At(index) => self.standing_known(table, peer, index, now_ms),
            Seek::Gap(_) => Standing::Free(self),
        }
    }

    // A peer's connection closed: its buckets are kept, its old violations are not.
    pub fn on_disconnected(
        self,
        table: &mut [u8],
        peer: Pubkey,
        now_ms: u64,
    ) -> Result<PeerMessagePolicy, Refusal>
        ensures { OnDisconnectedMeets self table.old peer now_ms result table.new }
    {
        match self.sought(table, peer) {
            Seek::Unsound => Err(Refusal::Unsound),
            Seek::At(index) => Ok(self.disconnected_known(table, peer, index, now_ms)),
            Seek::Gap(_) => Ok(self),
        }
    }

    // A message that was in flight is done with.
    #[tactic(auto, unfolding(crate::specs::Calls::ReleaseIngressMeets))]
    pub fn release_ingress(self, bytes: u64) -> Result<PeerMessagePolicy, Refusal>
        ensures { ReleaseIngressMeets self bytes result }
    {
        self.judged()?;
        Ok(self.after(self.ingress.release(bytes), self.rows))
    }

    // How many messages and bytes are in flight.
    #[tactic(auto, unfolding(crate::specs::Calls::InFlightMeets))]
    pub fn in_flight(self) -> Result<FiberIngressBudget, Refusal>
        ensures { InFlightMeets self result }
    {
        self.judged()?;
        Ok(self.ingress)
    }

    // The later of a given time and the peer's last-used time. A caller who passes the answer on to this peer's admit AND
    // record_invalid is shielded from a clock that steps back: record_invalid sets the last-used time too, so with a raw, earlier
    // time it would move back what the next held time answers. Nothing changes.
    pub fn held_time(self, table: &[u8], peer: Pubkey, given_ms: u64) -> Result<u64, Refusal>
        ensures { HeldTimeMeets self table.now peer given_ms result }
    {
        match self.sought(table, peer) {
            Seek::Unsound => Err(Refusal::Unsound),
            Seek::At(index) => Ok(self.held_known(table, peer, index, given_ms)),
            Seek::Gap(_) => Ok(given_ms),
        }
    }

    // Whether the record keeps its own rules. No table is judged.
    #[tactic(auto, unfolding(crate::specs::Policy::policy_sound))]
    pub fn is_sound(self) -> bool
        ensures { result ≡ policy_sound self }
    {
        self.config.max_tracked_peers <= PeerMessagePolicyConfig::MAX_ROWS
            && self.rows <= self.config.limit()
            && (self.config.is_unlimited()
                || (self.ingress.in_flight_messages <= self.config.max_in_flight_messages
                    && self.ingress.in_flight_bytes <= self.config.max_in_flight_bytes))
    }

    fn judged(self) -> Result<(), Refusal>
        ensures { result ≡ cond (policy_sound self) (Ok tt) (Err Refusal.Unsound) }
    {
        if !self.is_sound() {
            return Err(Refusal::Unsound);
        }
        Ok(())
    }

    // Whether record and table are sound: the calls refuse with 3 just where they are not. The same walk as theirs, with any peer.
    pub fn is_sound_in(self, table: &[u8]) -> bool
        ensures { result ≡ sound self table.now }
    {
        let any = Pubkey {
            bytes: [0; PUBKEY_SIZE],
        };
        !matches!(self.sought(table, any), Seek::Unsound)
    }
}
