// The load in flight as kind 2 of a snapshot: messages and bytes, two numbers of eight bytes.
ghost use Rattle.std.specs.Prelude.{◌≡◌, ◌+◌, ◌≤◌, length};
ghost use Rattle.lent_bytes.specs.LentBytes.{part, put};
ghost use Rattle.snapshot_settings.specs.Load.{load_size, load_words, load_bytes, load_of};

use lent_bytes::number::get_u64;
use peer_state::ingress::FiberIngressBudget;

// How many numbers it is, and the size that they take, in bytes.
const LOAD_WORDS: usize = 2;

pub const LOAD_SIZE: usize = 8 * LOAD_WORDS;

// The load that stands at the place.
pub fn read_load(bytes: &[u8], at: usize) -> Option<FiberIngressBudget>
    requires { at + load_size ≤ length bytes.now }
    ensures { result ≡ load_of (part bytes.now at load_size) }
{
    let messages = get_u64(bytes, at);
    if messages > 0xffff_ffff {
        return None;
    }
    Some(FiberIngressBudget {
        in_flight_messages: messages as u32,
        in_flight_bytes: get_u64(bytes, at + 8),
    })
}

// The two numbers in their order.
fn words_of(load: FiberIngressBudget) -> [u64; LOAD_WORDS]
    ensures { result ≡ load_words load }
{
    [load.in_flight_messages as u64, load.in_flight_bytes]
}

// Writes the load at the place.
pub fn put_load(output: &mut [u8], at: usize, load: FiberIngressBudget)
    requires { at + load_size ≤ length output.old }
    ensures { output.new ≡ put output.old at (load_bytes load) }
{
    table::rows::put_words(output, at, &words_of(load));
}
