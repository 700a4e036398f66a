// Making bits with a length, and what they answer by the list of their places.
ghost use Rattle.std.specs.Prelude.{◌≡◌, ◌-◌, ◌%◌, ◌^◌, ◌<◌, true, length, Some};
ghost use Rattle.std.specs.Option.{option_map};
ghost use Rattle.std.specs.List.{slice_get};
ghost use Rattle.frames.specs.Faults.{answer};
ghost use Rattle.frames.specs.Halves.{is_odd, digits_of, spelled, unmarked};
ghost use Rattle.frames.specs.Places.{flipped_by, overlap, precedes, marks};
ghost use Rattle.frames.specs.Words.{places, bits_of};

use crate::bits::Bits;
use crate::faults::Fault;
use crate::halves::Halves;
use crate::length::Length;
use crate::words::Row;

impl Bits {
    // The first `len` places of the halves.
    pub fn new(len: usize, halves: Halves) -> Result<Bits, Fault>
        ensures { answer places result ≡ Some (bits_of len halves.first halves.second) }
    {
        let len = Length::try_from(len)?;
        if !halves.ends_before(len) {
            return Err(Fault::Mark);
        }
        Ok(Bits { len, halves })
    }

    // The first `len` places of halves that have no mark past them.
    pub(crate) fn of_clean(len: Length, halves: Halves) -> Bits
        requires { unmarked len.places halves.first halves.second ≡ true }
        ensures { places result ≡ spelled len.places halves.first halves.second }
    {
        Bits { len, halves }
    }

    // By `as`, since the upper and the lower 64 bits are meant: the places that the `len` lowest digits of a number spell, the highest first.
    pub(crate) fn spell(len: Length, value: u128) -> Bits
        requires { value < 2 ^ len.places }
        ensures { places result ≡ digits_of len.places value }
    {
        let wide = value << (128 - len.places);
        let halves = Halves {
            first: (wide >> 64) as u64,
            second: (wide % (1 << 64)) as u64,
        };
        Bits { len, halves }
    }

    pub fn len(&self) -> usize
        ensures { result ≡ length (places self.now) }
    {
        usize::from(self.len)
    }

    // The bit at a place; none at or past the length.
    pub fn bit(&self, place: usize) -> Option<bool>
        ensures { result ≡ slice_get (places self.now) place }
    {
        if place >= usize::from(self.len) {
            return None;
        }
        let shifted = if place < 64 {
            self.halves.first >> (63 - place)
        } else {
            self.halves.second >> (127 - place)
        };
        Some(shifted % 2 == 1)
    }

    // Where the two differ; none where their lengths do.
    pub(crate) fn xor(&self, other: &Bits) -> Option<Bits>
        ensures { option_map places result ≡ flipped_by (places self.now) (places other.now) }
    {
        if self.len != other.len {
            return None;
        }
        let halves = Halves {
            first: self.halves.first ^ other.halves.first,
            second: self.halves.second ^ other.halves.second,
        };
        Some(Bits {
            len: self.len,
            halves,
        })
    }

    // How many places are marked.
    pub fn marks(&self) -> u32
        ensures { result ≡ marks (places self.now) }
    {
        self.halves.first.count_ones() + self.halves.second.count_ones()
    }

    // Parity over a row: whether an odd number of the places that it marks are marked here.
    pub fn parity(&self, row: &Row) -> bool
        ensures { result ≡ is_odd (overlap (places self.now) (places row.now.bits)) }
    {
        let other = row.bits.halves;
        let both = (self.halves.first & other.first).count_ones()
            + (self.halves.second & other.second).count_ones();
        both % 2 == 1
    }

    // The tie order: whether these bits have no mark at the first place where the two differ.
    pub fn precedes(&self, other: &Bits) -> bool
        ensures { result ≡ precedes (places self.now) (places other.now) }
    {
        self.halves < other.halves
    }
}
