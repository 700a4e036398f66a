// Level weight.
ghost use Rattle.std.specs.Prelude.{◌≡◌, ℕ};
ghost use Rattle.weights.specs.Values.{level_value};
ghost use Rattle.weights.specs.Whole.{level_model};
ghost use Rattle.weights.specs.WholeLemmas.{whole_laws};

use crate::weight::Weight;

// Level weight: a whole number, and each price is the number asked with.
#[derive(Clone, Copy, PartialEq, Eq, PartialOrd, Ord, Debug)]
pub struct Level {
    number: u32,
}

impl Level {
    // The whole number.
    pub fn number(&self) -> u32
        ensures { result ≡ level_value self.now }
    {
        self.number
    }
}

impl Weight for Level {
    ghost Value = { ℕ };

    ghost model = { level_model };

    ghost value = { level_value };

    ghost laws = { whole_laws (λ w. w) (λ p. p) };

    fn zero() -> Level {
        Level { number: 0 }
    }

    fn flip(w: u16) -> Level {
        Level {
            number: u32::from(w),
        }
    }

    fn surcharge(p: u16) -> Level {
        Level::flip(p)
    }

    fn plus(self, other: Level) -> Level {
        Level {
            number: self.number.saturating_add(other.number),
        }
    }

    fn at_most(self, other: Level) -> bool {
        self <= other
    }
}
