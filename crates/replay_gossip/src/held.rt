// What the records drive: the words that the C functions get, the keys, and how much of each memory is lent.
use c_terms::reply::Reply;
use lent_bytes::number::{put_u32, put_u64};
use replay::line::Line;
use replay::record::{Record, high_half, key_of, low_half};

#[derive(Clone, Copy)]
pub(crate) struct Held {
    pub longs: [u64; 10],
    pub shorts: [u32; 6],
    pub peer: [u8; 33],
    pub outpoint: [u8; 36],
    pub first_lent: usize,
    pub second_lent: usize,
}

impl Held {
    // Nothing but zeros, and so much lent.
    pub(crate) fn lending(first_lent: usize, second_lent: usize) -> Held {
        Held {
            longs: [0u64; 10],
            shorts: [0u32; 6],
            peer: [0u8; 33],
            outpoint: [0u8; 36],
            first_lent,
            second_lent,
        }
    }

    // Longs 0 to 6.
    pub(crate) fn set_longs(&mut self, r: Record) {
        let [.., seventh, eighth, ninth] = self.longs;
        self.longs = [
            r.first, r.second, r.third, r.fourth, r.fifth, r.sixth, r.seventh, seventh, eighth,
            ninth,
        ];
    }

    // Longs 7 to 9, and all shorts, two a word.
    pub(crate) fn set_more(&mut self, r: Record) {
        self.longs[7] = r.first;
        self.longs[8] = r.second;
        self.longs[9] = r.third;
        self.shorts = [
            low_half(r.fourth),
            high_half(r.fourth),
            low_half(r.fifth),
            high_half(r.fifth),
            low_half(r.sixth),
            high_half(r.sixth),
        ];
    }

    pub(crate) fn set_peer(&mut self, r: Record) {
        self.peer = key_of(r.first, r.second, r.third, r.fourth, r.fifth);
    }

    // The first 36 bytes of five words.
    pub(crate) fn set_outpoint(&mut self, r: Record) {
        put_u64(&mut self.outpoint, 0, r.first);
        put_u64(&mut self.outpoint, 8, r.second);
        put_u64(&mut self.outpoint, 16, r.third);
        put_u64(&mut self.outpoint, 24, r.fourth);
        put_u32(&mut self.outpoint, 32, low_half(r.fifth));
    }

    pub(crate) fn set_lengths(&mut self, r: Record) {
        self.first_lent = r.first as usize;
        self.second_lent = r.second as usize;
    }

    // Makes a call on the words of a ban tracker or a limiter, which are the first of all.
    pub(crate) fn on_front<F>(&mut self, call: F) -> Reply
    where
        F: FnOnce(&mut [u64; 3], &mut [u32; 1], &mut [u64; 1]) -> u32,
        requires { F.IsAlwaysCallable call }
    {
        let [a, b, c, ..] = self.longs;
        let mut longs = [a, b, c];
        let mut shorts = [self.shorts[0]];
        let mut value = [0u64; 1];
        let number = call(&mut longs, &mut shorts, &mut value);
        self.longs[0] = longs[0];
        self.longs[1] = longs[1];
        self.longs[2] = longs[2];
        self.shorts[0] = shorts[0];
        Reply {
            number,
            value: value[0],
        }
    }
}

pub(crate) fn says(text: &[u8]) -> Line {
    Line::empty().text(text)
}
