// A guess rule and a layer written outside the crate `rules`.
#![tactic(auto)]

pub mod apart;
pub mod flat;

#[cfg(test)]
mod tests {
    use crate::apart::{Apart, NoPairs};
    use crate::flat::Flat;
    use frames::bits::Bits;
    use frames::halves::Halves;
    use frames::words::Pattern;
    use rules::rule::Rule;
    use rules::weigh::weigh;
    use std::test::Fail;
    use weights::level::Level;

    // As a user of the library would write it: what the pattern of three places weighs that the three lowest digits of
    // a number spell.
    fn three<R: Rule<Cost = Level>>(rule: &R, number: u64) -> Result<Option<u32>, Fail> {
        let halves = Halves {
            first: (number % 8) << 61,
            second: 0,
        };
        let bits = Bits::new(3, halves)?;
        Ok(weigh(rule, &Pattern { bits }).map(|weight| weight.number()))
    }

    #[test]
    fn each_flip_costs_the_same(rt: HostRuntime) -> Result<(), Fail> {
        let rule: Flat<Level> = Flat::new(3, 10);
        assert_eq!(rt; three(&rule, 0b000)?, Some(0));
        assert_eq!(rt; three(&rule, 0b101)?, Some(20));
        assert_eq!(rt; three(&rule, 0b111)?, Some(30));
        Ok(())
    }

    #[test]
    fn neighbours_are_barred(rt: HostRuntime) -> Result<(), Fail> {
        let flat: Flat<Level> = Flat::new(3, 10);
        let rule = Apart {
            below: flat,
            layer: NoPairs,
        };
        assert_eq!(rt; rule.states(), 2);
        for number in 0..8 {
            let apart = number != 0b011 && number != 0b110 && number != 0b111;
            assert_eq!(rt; three(&rule, number)?.is_some(), apart);
        }
        Ok(())
    }
}
