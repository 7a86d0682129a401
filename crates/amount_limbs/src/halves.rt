// A u64 as two halves of 32 bits.
ghost use Rattle.std.specs.Prelude.{◌≡◌, ◌+◌, ◌*◌, ◌/◌, ◌%◌};

#[derive(Clone, Copy, Debug, PartialEq, Eq)]
pub struct Halves {
    pub low: u32,
    pub high: u32,
}

impl Halves {
    // The halves of a number.
    pub fn of(n: u64) -> Halves
        ensures low { result.low ≡ n % 4294967296 }
        ensures high { result.high ≡ n / 4294967296 }
    {
        Halves {
            low: (n % 0x1_0000_0000) as u32,
            high: (n / 0x1_0000_0000) as u32,
        }
    }

    // The number whose halves they are.
    pub fn joined(self) -> u64
        ensures { result ≡ self.low + 4294967296 * self.high }
    {
        self.low as u64 + 0x1_0000_0000 * (self.high as u64)
    }
}
