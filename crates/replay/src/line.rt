// A line of text, put together piece by piece. What is longer than a line holds is cut.
ghost use Rattle.std.specs.Prelude.{◌≡◌, [], ◌∷◌, ◌+◌, ◌*◌};
ghost use Rattle.replay.specs.Line.{written, extended, truth_text, amount_text};
ghost use Rattle.text_pieces.specs.Text.{number_text, refusal_piece};
ghost use Rattle.decimal.specs.Decimal.{digits_of};

use amount::Amount;
use amount_limbs::halves::Halves;
use decimal::MOST_DIGITS;

// How many bytes a line has room for.
pub const LINE_SIZE: usize = 160;

#[derive(Clone, Copy)]
pub struct Line {
    pub bytes: [u8; LINE_SIZE],
    pub used: usize,
}

impl Line {
    pub fn empty() -> Line
        ensures { written result ≡ [] }
    {
        let bytes = [0u8; LINE_SIZE];
        Line { bytes, used: 0 }
    }

    pub fn byte(self, b: u8) -> Line
        ensures { written result ≡ extended (written self) (b ∷ []) }
    {
        let at = self.used;
        if at >= LINE_SIZE {
            return self;
        }
        let mut bytes = self.bytes;
        bytes[at] = b;
        Line {
            bytes,
            used: at + 1,
        }
    }

    pub fn text(self, s: &[u8]) -> Line
        ensures { written result ≡ extended (written self) s.now }
    {
        let mut line = self;
        for &b in s {
            line = line.byte(b);
        }
        line
    }

    pub fn decimal(self, n: u64) -> Line
        ensures { written result ≡ extended (written self) (digits_of n) }
    {
        let mut digits = [0u8; MOST_DIGITS];
        let end = decimal::put_decimal(&mut digits, 0, n);
        self.text(&digits[..end])
    }

    // A number after a space.
    pub fn then(self, n: u64) -> Line
        ensures { written result ≡ extended (written self) (number_text n) }
    {
        self.byte(b' ').decimal(n)
    }

    // 1 for true, 0 for false.
    pub fn truth(self, b: bool) -> Line
        ensures { written result ≡ extended (written self) (truth_text b) }
    {
        if b {
            return self.byte(b'1');
        }
        self.byte(b'0')
    }

    // An amount as its three words: sign, low half, high half.
    pub fn amount(self, a: Amount) -> Line
        ensures { written result ≡ extended (written self) (amount_text a) }
    {
        self.truth(a.negative)
            .then(joined(a.limbs[0], a.limbs[1]))
            .then(joined(a.limbs[2], a.limbs[3]))
    }

    pub fn refusal(self, number: u32) -> Line
        ensures { written result ≡ extended (written self) (refusal_piece number) }
    {
        self.text(b"refusal").then(number as u64)
    }
}

fn joined(low: u32, high: u32) -> u64
    ensures { result ≡ low + 4294967296 * high }
{
    Halves { low, high }.joined()
}
