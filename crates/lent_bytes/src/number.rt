// Numbers in a slice of bytes, the least byte first (but for fronts, which are ordered as their bytes). A compiler makes one load or one store
// of each.
ghost use Rattle.std.specs.Prelude.{◌≡◌, ◌+◌, ◌≤◌, length};
ghost use Rattle.lent_bytes.specs.LentBytes.{part, put, le, bytes};
ghost use Rattle.lent_bytes.specs.Private.{front};

use super::run::put_slice;

// The `N` bytes at the place.
#[tactic(auto, unfolding(crate::specs::LentBytes::part))]
pub fn array_at<const N: usize>(s: &[u8], at: usize) -> [u8; N]
    requires { at + N ≤ length s.now }
    ensures { result ≡ part s.now at N }
{
    s[at..at + N].try_into().unwrap()
}

// The number that the 2 bytes at the place spell.
pub fn get_u16(s: &[u8], at: usize) -> u16
    requires { at + 2 ≤ length s.now }
    ensures { result ≡ le (part s.now at 2) }
{
    u16::from_le_bytes(array_at(s, at))
}

// The number that the 4 bytes at the place spell.
pub fn get_u32(s: &[u8], at: usize) -> u32
    requires { at + 4 ≤ length s.now }
    ensures { result ≡ le (part s.now at 4) }
{
    u32::from_le_bytes(array_at(s, at))
}

// The number that the 8 bytes at the place spell.
pub fn get_u64(s: &[u8], at: usize) -> u64
    requires { at + 8 ≤ length s.now }
    ensures { result ≡ le (part s.now at 8) }
{
    u64::from_le_bytes(array_at(s, at))
}

// The eight bytes at the place as one number, the first the highest: where two runs differ there, one comparison of these decides.
pub fn front_at(s: &[u8], at: usize) -> u64
    requires { at + 8 ≤ length s.now }
    ensures { result ≡ front 8 s.now at }
{
    u64::from_be_bytes(array_at(s, at))
}

// Writes the number's 2 bytes at the place.
pub fn put_u16(s: &mut [u8], at: usize, v: u16)
    requires { at + 2 ≤ length s.old }
    ensures { s.new ≡ put s.old at (bytes 2 v) }
{
    put_slice(s, at, &v.to_le_bytes());
}

// Writes the number's 4 bytes at the place.
pub fn put_u32(s: &mut [u8], at: usize, v: u32)
    requires { at + 4 ≤ length s.old }
    ensures { s.new ≡ put s.old at (bytes 4 v) }
{
    put_slice(s, at, &v.to_le_bytes());
}

// Writes the number's 8 bytes at the place.
pub fn put_u64(s: &mut [u8], at: usize, v: u64)
    requires { at + 8 ≤ length s.old }
    ensures { s.new ≡ put s.old at (bytes 8 v) }
{
    put_slice(s, at, &v.to_le_bytes());
}
