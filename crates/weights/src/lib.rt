// Kinds of weight: what flips and surcharges cost, and how costs are added up and compared.
#![tactic(auto)]

pub mod flips_first;
pub mod level;
pub mod price;
pub mod weight;

#[cfg(test)]
mod tests {
    use crate::flips_first::FlipsFirst;
    use crate::level::Level;
    use crate::price::{Price, total};
    use crate::weight::Weight;

    // What the prices come to: the number of level weight, and both parts of flips first.
    fn totals(prices: &[Price]) -> (u32, u32, u32) {
        let level: Level = total(prices);
        let both: FlipsFirst = total(prices);
        (level.number(), both.flips(), both.number())
    }

    #[test]
    fn prices_add_up(rt: HostRuntime) {
        let prices = [Price::Flip(7), Price::Surcharge(4), Price::Flip(2)];
        assert_eq!(rt; totals(&prices), (13, 2, 13));
    }

    #[test]
    fn flips_decide_first(rt: HostRuntime) {
        let flip = FlipsFirst::flip(0);
        let dear = FlipsFirst::surcharge(65535).plus(FlipsFirst::surcharge(65535));
        assert!(rt; dear.at_most(flip));
        assert!(rt; !flip.at_most(dear));
        assert!(rt; !Level::surcharge(1).at_most(Level::flip(0)));
    }

    #[test]
    fn ties_go_both_ways(rt: HostRuntime) {
        let one = FlipsFirst::flip(3).plus(FlipsFirst::surcharge(1));
        let other = FlipsFirst::surcharge(4).plus(FlipsFirst::flip(0));
        assert!(rt; one.at_most(other) && other.at_most(one));
        assert!(rt; !FlipsFirst::flip(5).at_most(one));
        assert!(rt;
            Level::flip(2).at_most(Level::surcharge(2))
                && Level::surcharge(2).at_most(Level::flip(2))
        );
    }

    #[test]
    fn largest_sums_are_exact(rt: HostRuntime) {
        let prices = [Price::Flip(65535); 256];
        assert_eq!(rt; totals(&prices), (16_776_960, 256, 16_776_960));
    }

    #[test]
    fn sums_far_beyond_end(rt: HostRuntime) {
        let mut level = Level::flip(1);
        let mut both = FlipsFirst::flip(1);
        for _ in 0..40 {
            level = level.plus(level);
            both = both.plus(both);
        }
        assert_eq!(rt; level.number(), u32::MAX);
        assert_eq!(rt; both.flips(), u32::MAX);
    }
}
