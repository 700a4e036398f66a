// A layer: what the rule below admits, with no two neighbouring flips.
ghost use Rattle.own_rule.specs.Apart.{apart_own, no_pairs};
ghost use Rattle.own_rule.specs.ApartLaw.{apart_keeps};
ghost use Rattle.std.specs.Prelude.{None};

use rules::layer::{Layer, Layered};

// No two neighbouring flips. The own state is 1 after a flip, else 0.
#[derive(Drop)]
pub struct NoPairs;

// The layer of no two neighbouring flips over a rule.
pub type Apart<R> = Layered<R, NoPairs>;

impl Layer for NoPairs {
    ghost own_length = { λ l. None };

    ghost own = { λ l. apart_own };

    ghost admits = { λ l bs. no_pairs bs };

    ghost keeps = { λ l. apart_keeps };

    fn own_length(&self) -> Option<usize> {
        None
    }

    fn factor(&self) -> usize {
        2
    }

    fn start(&self) -> usize {
        0
    }

    fn is_end(&self, _own_state: usize) -> bool {
        true
    }

    fn turn(&self, _place: usize, own_state: usize, flip: bool) -> Option<usize> {
        if !flip {
            Some(0)
        } else if own_state == 0 {
            Some(1)
        } else {
            None
        }
    }
}
