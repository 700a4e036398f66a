// A kind of weight written outside the crate `weights`: the struct, its model and value, the laws, and five methods.
#![tactic(auto)]

ghost use Rattle.std.specs.Prelude.{◌≡◌, ℕ};
ghost use Rattle.weights.specs.Whole.{whole};
ghost use Rattle.weights.specs.WholeLemmas.{whole_laws};

use weights::weight::Weight;

// Flips only: how many flips there are. A surcharge costs nothing.
#[derive(Clone, Copy, PartialEq, Eq, PartialOrd, Ord, Debug)]
pub struct FlipsOnly {
    flips: u16,
}

impl FlipsOnly {
    // The count of flips.
    pub fn flips(&self) -> u16
        ensures { result ≡ self.now.flips }
    {
        self.flips
    }
}

impl Weight for FlipsOnly {
    ghost Value = { ℕ };

    ghost model = { whole (λ _. 1) (λ _. 0) };

    ghost value = { λ s. s.flips };

    ghost laws = { whole_laws (λ _. 1) (λ _. 0) };

    fn zero() -> FlipsOnly {
        FlipsOnly { flips: 0 }
    }

    fn flip(_w: u16) -> FlipsOnly {
        FlipsOnly { flips: 1 }
    }

    fn surcharge(_p: u16) -> FlipsOnly {
        FlipsOnly::zero()
    }

    fn plus(self, other: FlipsOnly) -> FlipsOnly {
        FlipsOnly {
            flips: self.flips.saturating_add(other.flips),
        }
    }

    fn at_most(self, other: FlipsOnly) -> bool {
        self <= other
    }
}

#[cfg(test)]
mod tests {
    use crate::FlipsOnly;
    use weights::price::{Price, total};
    use weights::weight::Weight;

    #[test]
    fn flips_are_counted(rt: HostRuntime) {
        let prices = [Price::Flip(9), Price::Surcharge(65535), Price::Flip(0)];
        let sum: FlipsOnly = total(&prices);
        assert_eq!(rt; sum.flips(), 2);
        assert!(rt; FlipsOnly::surcharge(7).at_most(FlipsOnly::zero()));
        assert!(rt; !sum.at_most(FlipsOnly::flip(65535)));
    }

    #[test]
    fn sums_far_beyond_end(rt: HostRuntime) {
        let mut sum = FlipsOnly::flip(0);
        for _ in 0..20 {
            sum = sum.plus(sum);
        }
        assert_eq!(rt; sum.flips(), u16::MAX);
    }
}
