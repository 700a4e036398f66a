// The places of bits, one after another.
ghost use Rattle.std.specs.Prelude.{◌≡◌, drop};
ghost use Rattle.std.specs.Iterator.{YieldsFirst, item_count};
ghost use Rattle.frames.specs.Words.{places};

use crate::bits::Bits;

// The places of `bits` from `place` on.
#[derive(Clone, Copy)]
pub struct Iter {
    bits: Bits,
    place: usize,
}

impl Iterator for Iter {
    type Item = bool;

    ghost next_gives = { YieldsFirst (λ s. drop s.place (places s.bits)) };

    ghost remaining = { item_count (λ s. drop s.place (places s.bits)) };

    fn next(&mut self) -> Option<bool> {
        let bit = self.bits.bit(self.place)?;
        self.place += 1;
        Some(bit)
    }
}

impl Bits {
    // Each place in order, place 0 first.
    pub fn iter(&self) -> Iter
        ensures { drop result.place (places result.bits) ≡ places self.now }
    {
        self.iter_from(0)
    }

    // Each place from `place` on; none past the length.
    pub fn iter_from(&self, place: usize) -> Iter
        ensures { drop result.place (places result.bits) ≡ drop place (places self.now) }
    {
        Iter { bits: *self, place }
    }
}

impl IntoIterator for &Bits {
    type Item = bool;

    type IntoIter = Iter;

    ghost into_iter_gives = { λ bits it. drop it.place (places it.bits) ≡ places bits.now };

    fn into_iter(self) -> Iter {
        self.iter()
    }
}
