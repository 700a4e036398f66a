// What a rule makes of one pattern.
ghost use Rattle.frames.specs.Words.{places};
ghost use Rattle.rules.specs.Answers.{weighed};
ghost use Rattle.rules.specs.Meaning.{HasMeaning};
ghost use Rattle.std.specs.Option.{option_map};
ghost use Rattle.std.specs.Prelude.{◌≡◌};

use crate::rule::Rule;
use frames::words::Pattern;
use weights::weight::Weight;

// What a pattern weighs under a rule with further meaning; none where it has another length or is not admitted.
pub fn weigh<R: Rule>(rule: &R, pattern: &Pattern) -> Option<R::Cost>
    ensures { HasMeaning (R.Rule.trellis rule.now) → option_map R.Cost.Weight.value result ≡ weighed R.Cost.Weight.model (R.Rule.trellis rule.now).places (R.Rule.admits rule.now) (R.Rule.prices rule.now) (places pattern.now.bits) }
{
    if pattern.bits.len() != rule.length() {
        return None;
    }
    let mut state = rule.start();
    let mut sum = R::Cost::zero();
    for (place, flip) in pattern.bits.iter().enumerate() {
        let step = rule.step(place, state, flip)?;
        state = step.next;
        sum = sum.plus(step.cost);
    }
    rule.is_end(state).then_some(sum)
}
