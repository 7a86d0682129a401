// The load in flight over all peers, and its ceiling.
ghost use Rattle.std.specs.Prelude.{◌≡◌, ◌+◌, ◌||◌, cond, eqb, ltb, Ok, Err, Some};
ghost use Rattle.refusal.specs.declared.Refusal.TheVariants as Refusal;
ghost use Rattle.peer_state.specs.declared.ingress.NotReserved.TheVariants as NotReserved;
ghost use Rattle.peer_state.specs.Ingress.{try_reserve, ingress_reserved, ingress_released, not_reserved_text};

use peer_settings::config::PeerMessagePolicyConfig;
use refusal::Refusal;
use std::error::Error;
use std::fmt;

#[derive(Clone, Copy, Debug, PartialEq, Eq)]
pub struct FiberIngressBudget {
    pub in_flight_messages: u32,
    pub in_flight_bytes: u64,
}

// Why there is no room for one message more: no slot, so many bytes too few, or the call is refused.
#[derive(Clone, Copy, Debug, PartialEq, Eq)]
pub enum NotReserved {
    NoSlot,
    BytesShort(u64),
    Refused(Refusal),
}

impl From<Refusal> for NotReserved {
    ghost from_gives = { λ refusal e. e ≡ NotReserved.Refused refusal };

    fn from(refusal: Refusal) -> NotReserved {
        NotReserved::Refused(refusal)
    }
}

impl fmt::Display for NotReserved {
    ghost output = { λ e. Some (not_reserved_text e) };

    fn fmt<W: fmt::Write>(&self, f: &mut fmt::Formatter<W>) -> fmt::Result {
        match self {
            NotReserved::NoSlot => write!(f, "no slot in flight"),
            NotReserved::BytesShort(by) => write!(f, "short by {by} bytes in flight"),
            NotReserved::Refused(refusal) => write!(f, "{refusal}"),
        }
    }
}

impl Error for NotReserved {}

impl FiberIngressBudget {
    // Room for one message of this size: a slot first, then the bytes. Without a ceiling the load may outgrow its numbers, and is
    // then refused with 4.
    #[tactic(auto, unfolding(crate::specs::Ingress::try_reserve))]
    pub fn try_reserve(
        self,
        config: PeerMessagePolicyConfig,
        size: u64,
    ) -> Result<FiberIngressBudget, NotReserved>
        ensures { result ≡ try_reserve config self size }
    {
        if !config.is_unlimited() {
            if self.in_flight_messages >= config.max_in_flight_messages {
                return Err(NotReserved::NoSlot);
            }
            let free = config
                .max_in_flight_bytes
                .saturating_sub(self.in_flight_bytes);
            if size > free {
                return Err(NotReserved::BytesShort(size - free));
            }
        }
        Ok(self.reserved(size)?)
    }

    // The load with one message more, refused with 4 where it outgrows its numbers.
    fn reserved(self, size: u64) -> Result<FiberIngressBudget, Refusal>
        ensures { result
            ≡ cond (eqb self.in_flight_messages 4294967295 || ltb 18446744073709551615 (self.in_flight_bytes + size)) (Err Refusal.Overflow)
            (Ok (ingress_reserved self size)) }
    {
        Ok(FiberIngressBudget {
            in_flight_messages: self
                .in_flight_messages
                .checked_add(1)
                .ok_or(Refusal::Overflow)?,
            in_flight_bytes: self
                .in_flight_bytes
                .checked_add(size)
                .ok_or(Refusal::Overflow)?,
        })
    }

    // The load with one message less: each number by itself stops at 0.
    pub fn release(self, size: u64) -> FiberIngressBudget
        ensures { result ≡ ingress_released self size }
    {
        FiberIngressBudget {
            in_flight_messages: self.in_flight_messages.saturating_sub(1),
            in_flight_bytes: self.in_flight_bytes.saturating_sub(size),
        }
    }
}
