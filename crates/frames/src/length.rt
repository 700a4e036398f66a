// How many places a frame, a word, a pattern or a row has.
ghost use Rattle.std.specs.Prelude.{◌≡◌, ◌≤◌, Some};
ghost use Rattle.frames.specs.Faults.{answer};
ghost use Rattle.frames.specs.Lengths.{length_of};

use crate::faults::Fault;

// The most places.
const MOST: usize = 128;

// 1 to 128 places.
#[derive(Clone, Copy, Debug, PartialEq, Eq)]
pub struct Length {
    pub(crate) places: u8,
    ghost some: { 1 ≤ places },
    ghost most: { places ≤ 128 },
}

impl TryFrom<usize> for Length {
    type Error = Fault;

    ghost try_from_gives = { λ n r. answer (λ l. l.places) r ≡ Some (length_of n) };

    fn try_from(places: usize) -> Result<Length, Fault> {
        if places == 0 || places > MOST {
            return Err(Fault::Length);
        }
        // at most 128, so that `as` loses nothing
        Ok(Length {
            places: places as u8,
        })
    }
}

impl From<Length> for usize {
    ghost from_gives = { λ l r. r ≡ l.places };

    fn from(len: Length) -> usize {
        usize::from(len.places)
    }
}
