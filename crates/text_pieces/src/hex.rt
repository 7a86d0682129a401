// Bytes as hex digits, lower case.
ghost use Rattle.std.specs.Prelude.{◌≡◌, ◌+◌, ◌*◌, ◌≤◌, ◌<◌, length};
ghost use Rattle.text_pieces.specs.Text.{hex_char, hex_text};
ghost use Rattle.text_pieces.specs.Private.{Wrote};

// The digit of a number below 16.
fn hex_char(value: u8) -> u8
    requires { value < 16 }
    ensures { result ≡ hex_char value }
{
    if value < 10 {
        return b'0' + value;
    }
    b'a' - 10 + value
}

// Writes the two digits of each byte.
pub fn put_hex(out: &mut [u8], at: usize, bytes: &[u8]) -> usize
    requires { at + 2 * length bytes.now ≤ length out.old }
    ensures { Wrote out.old at (hex_text bytes.now) result out.new }
{
    let mut place = at;
    for &byte in bytes {
        out[place] = hex_char(byte / 16);
        out[place + 1] = hex_char(byte % 16);
        place += 2;
    }
    place
}
