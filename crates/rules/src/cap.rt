// Cap: what the rule below admits, with at most a number of flips.
ghost use Rattle.std.specs.Prelude.{◌≡◌, ◌≤◌, IfOk, Some, None, nat_le};
ghost use Rattle.frames.specs.Faults.{answer};
ghost use Rattle.frames.specs.Places.{marks};
ghost use Rattle.rules.specs.Cap.{cap_from, cap_own};
ghost use Rattle.rules.specs.CapLaw.{cap_keeps};

use crate::layer::{Layer, Layered};
use crate::rule::Rule;
use frames::faults::Fault;

// The most flips. The own state is the number of flips so far.
#[derive(Drop)]
pub struct AtMost {
    most: u8,
    ghost low: { most ≤ 7 },
}

// The layer of at most a number of flips over a rule.
pub type Cap<R> = Layered<R, AtMost>;

impl<R: Rule + Drop> Cap<R> {
    // The layer that admits at most `most` flips, 0 to 7.
    pub fn new(below: R, most: u8) -> Result<Cap<R>, Fault>
        ensures most { answer (λ w. w.layer.most) result ≡ Some (cap_from most) }
        ensures below { IfOk result (λ w. w.below ≡ below) }
    {
        if most > 7 {
            return Err(Fault::Cap);
        }
        Ok(Layered {
            below,
            layer: AtMost { most },
        })
    }
}

impl Layer for AtMost {
    ghost own_length = { λ l. None };

    ghost own = { λ l. cap_own l.most };

    ghost admits = { λ l bs. nat_le (marks bs) l.most };

    ghost keeps = { λ l. cap_keeps l.most };

    fn own_length(&self) -> Option<usize> {
        None
    }

    fn factor(&self) -> usize {
        usize::from(self.most) + 1
    }

    fn start(&self) -> usize {
        0
    }

    fn is_end(&self, _own_state: usize) -> bool {
        true
    }

    fn turn(&self, _place: usize, own_state: usize, flip: bool) -> Option<usize> {
        if !flip {
            Some(own_state)
        } else if own_state < usize::from(self.most) {
            Some(own_state + 1)
        } else {
            None
        }
    }
}
