// The cause of admit's answer as two words: its number, and by how much its limit ran short.
ghost use Rattle.std.specs.Prelude.{◌≡◌};
ghost use Rattle.c_words.specs.CauseWords.{cause_left};
ghost use Rattle.c_words.specs.Private.{ShortageWords};

use peer_verdict::verdict::{Cause, Shortage};

// Kept: the C interface has numbers for causes.
pub const ALLOWED: u64 = 0;

pub const MESSAGES: u64 = 1;

pub const BYTES: u64 = 2;

pub const SLOT: u64 = 3;

pub const CEILING_BYTES: u64 = 4;

pub const LIVE_BAN: u64 = 5;

pub const BAN_BEGUN: u64 = 6;

// A message and a slot are short by one.
fn shortage_words(shortage: Shortage) -> [u64; 2]
    ensures { ShortageWords shortage result }
{
    match shortage {
        Shortage::Messages => [MESSAGES, 1],
        Shortage::Bytes(short) => [BYTES, short],
        Shortage::Slot => [SLOT, 1],
        Shortage::CeilingBytes(short) => [CEILING_BYTES, short],
    }
}

// Leaves the words of a cause; on a refusal what stood there stays.
pub fn leave(words: &mut [u64; 2], cause: Cause)
    ensures { words.new ≡ cause_left cause words.old }
{
    match cause {
        Cause::Allowed => *words = [ALLOWED, 0],
        Cause::Short(shortage) => *words = shortage_words(shortage),
        Cause::LiveBan => *words = [LIVE_BAN, 0],
        Cause::BanBegun => *words = [BAN_BEGUN, 0],
        Cause::Refused(_) => (),
    }
}
