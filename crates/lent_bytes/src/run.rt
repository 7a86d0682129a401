// Runs of bytes in a slice: written, moved within it, and filled with zeros.
ghost use Rattle.std.specs.Prelude.{◌≡◌, ◌+◌, ◌-◌, ◌≤◌, length, replicate};
ghost use Rattle.lent_bytes.specs.LentBytes.{part, put, zeros};

// Writes all of `src` into `dst` at the place.
pub fn put_slice(dst: &mut [u8], at: usize, src: &[u8])
    requires { at + length src.now ≤ length dst.old }
    ensures { dst.new ≡ put dst.old at src.now }
{
    for (i, &byte) in src.iter().enumerate() {
        dst[at + i] = byte;
    }
}

// Moves the `count` bytes at the place up by `width` places: it opens a gap. What it moves may overlap with where it moves it to.
pub fn move_up(s: &mut [u8], at: usize, count: usize, width: usize)
    requires { at + count + width ≤ length s.old }
    ensures { s.new ≡ put s.old (at + width) (part s.old at count) }
{
    s.copy_within(at..at + count, at + width);
}

// Moves the `count` bytes at the place down by `width` places: it closes a gap. What it moves may overlap with where it moves it to.
pub fn move_down(s: &mut [u8], at: usize, count: usize, width: usize)
    requires width_le_at { width ≤ at }
    requires count_in_bounds { at + count ≤ length s.old }
    ensures { s.new ≡ put s.old (at - width) (part s.old at count) }
{
    s.copy_within(at..at + count, at - width);
}

// Writes a byte `count` times at the place.
pub fn fill(s: &mut [u8], at: usize, count: usize, byte: u8)
    requires { at + count ≤ length s.old }
    ensures { s.new ≡ put s.old at (replicate count byte) }
{
    s[at..at + count].fill(byte);
}

// Writes `count` zero bytes at the place.
pub fn fill_zeros(s: &mut [u8], at: usize, count: usize)
    requires { at + count ≤ length s.old }
    ensures { s.new ≡ put s.old at (zeros count) }
{
    fill(s, at, count, 0);
}
