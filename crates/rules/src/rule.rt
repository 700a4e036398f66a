// What every guess rule offers, and the law that it keeps.
ghost use Rattle.std.specs.Prelude.{◌≡◌, ◌≤◌, Bool, List, Decides};
ghost use Rattle.rules.specs.Answers.{answered, due};
ghost use Rattle.rules.specs.Meaning.{HasMeaning, Lawful};
ghost use Rattle.rules.specs.Trellis.{Trellis};
ghost use Rattle.weights.specs.declared.price.Price.{Price};

use crate::step::Step;
use weights::weight::Weight;

// A guess rule: which patterns it admits, and what they weigh.
pub trait Rule {
    // The kind of weight that its steps cost.
    type Cost: Weight;

    // Its steps.
    ghost trellis: { Self → Trellis };

    // Which patterns of its length it admits.
    ghost admits: { Self → List Bool → Bool };

    // The prices of an admitted pattern, in order.
    ghost prices: { Self → List Bool → List Price };

    // How many places its patterns have.
    fn length(&self) -> usize
        ensures { result ≡ (trellis self.now).places };

    // How many states it tells.
    fn states(&self) -> usize
        ensures number { result ≡ (trellis self.now).states }
        ensures some { 1 ≤ result }
        ensures most { result ≤ 65535 };

    // The state before place 0.
    fn start(&self) -> usize
        ensures { HasMeaning (trellis self.now) → result ≡ (trellis self.now).start };

    // Whether a pattern may end in a state.
    fn is_end(&self, state: usize) -> bool
        ensures { HasMeaning (trellis self.now) → result ≡ (trellis self.now).ends state };

    // The step at a place from a state, with a flip or without; none where it is barred. The three are no struct, since
    // a search tries the flips of one place and state, and the states of one place.
    fn step(&self, place: usize, state: usize, flip: bool) -> Option<Step<Self::Cost>>
        ensures { HasMeaning (trellis self.now) → answered Self.Cost.Weight.value result ≡ due Self.Cost.Weight.model ((trellis self.now).moves place state flip) };

    // What each rule has to show.
    ghost meaning: { (r : Self) → HasMeaning (trellis r) → Lawful (trellis r) (admits r) (prices r) };
}

// Every rule with further meaning keeps the law.
pub fn law_holds<R: Rule>(rule: &R)
    ensures { HasMeaning (R.Rule.trellis rule.now) → Lawful (R.Rule.trellis rule.now) (R.Rule.admits rule.now) (R.Rule.prices rule.now) }
{}

// Whether a rule has further meaning.
pub fn has_meaning<R: Rule>(rule: &R) -> bool
    ensures { Decides result (HasMeaning (R.Rule.trellis rule.now)) }
{
    (1..=128).contains(&rule.length()) && rule.states() <= 1024
}
