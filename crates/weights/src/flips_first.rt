// Flips first.
ghost use Rattle.weights.specs.Counted.{Counted, flips_first_model};
ghost use Rattle.weights.specs.Values.{flips_first_value};
ghost use Rattle.std.specs.Prelude.{◌≡◌};
ghost use Rattle.weights.specs.CountedLemmas.{counted_laws};

use crate::weight::Weight;

// Flips first: a count of flips, and a whole number that decides between equal counts.
#[derive(Clone, Copy, PartialEq, Eq, PartialOrd, Ord, Debug)]
pub struct FlipsFirst {
    flips: u32,
    number: u32,
}

impl FlipsFirst {
    // The count of flips.
    pub fn flips(&self) -> u32
        ensures { result ≡ (flips_first_value self.now).flips }
    {
        self.flips
    }

    // The whole number.
    pub fn number(&self) -> u32
        ensures { result ≡ (flips_first_value self.now).number }
    {
        self.number
    }
}

impl Weight for FlipsFirst {
    ghost Value = { Counted };

    ghost model = { flips_first_model };

    ghost value = { flips_first_value };

    ghost laws = { counted_laws };

    fn zero() -> FlipsFirst {
        FlipsFirst {
            flips: 0,
            number: 0,
        }
    }

    fn flip(w: u16) -> FlipsFirst {
        FlipsFirst {
            flips: 1,
            number: u32::from(w),
        }
    }

    fn surcharge(p: u16) -> FlipsFirst {
        FlipsFirst {
            flips: 0,
            number: u32::from(p),
        }
    }

    fn plus(self, other: FlipsFirst) -> FlipsFirst {
        FlipsFirst {
            flips: self.flips.saturating_add(other.flips),
            number: self.number.saturating_add(other.number),
        }
    }

    fn at_most(self, other: FlipsFirst) -> bool {
        self <= other
    }
}
