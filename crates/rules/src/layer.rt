// What a layer is, and the rule that it makes of the rule below.
ghost use Rattle.std.specs.Prelude.{◌≡◌, ℕ, ◌/◌, ◌%◌, ◌<◌, ◌&&◌, Bool, List, IfSome, Option};
ghost use Rattle.rules.specs.Layer.{Keeps, Own, layer_length, layered, overlaid, product};
ghost use Rattle.rules.specs.Layers.{layered_below, layered_lawful};

use crate::rule::Rule;
use crate::step::Step;

// A layer's own part: which patterns it admits itself, told by states of its own.
pub trait Layer {
    // The length of its own, if it has one.
    ghost own_length: { Self → Option ℕ };

    // Its states and turns.
    ghost own: { Self → Own };

    // Which patterns it admits itself.
    ghost admits: { Self → List Bool → Bool };

    // How many places its patterns have; none where any number will do.
    fn own_length(&self) -> Option<usize>
        ensures { result ≡ own_length self.now };

    // How many states it has of its own.
    fn factor(&self) -> usize
        ensures { result ≡ (own self.now).factor };

    // Its own state before place 0.
    fn start(&self) -> usize
        ensures { result ≡ (own self.now).start };

    // Whether a pattern may end in an own state.
    fn is_end(&self, own_state: usize) -> bool
        ensures { result ≡ (own self.now).ends own_state };

    // The own state after one more place; none where it is barred. The three are no struct, as in `Rule::step`.
    fn turn(&self, place: usize, own_state: usize, flip: bool) -> Option<usize>
        ensures { IfSome (own_length self.now) (λ n. place < n) → result ≡ (own self.now).turn place own_state flip };

    // The state below, of a state of both.
    fn outer(&self, state: usize) -> usize
        ensures { result ≡ state / (own self.now).factor }
    {
        state / self.factor()
    }

    // The own state, of a state of both.
    fn inner(&self, state: usize) -> usize
        ensures { result ≡ state % (own self.now).factor }
    {
        state % self.factor()
    }

    // What each layer has to show.
    ghost keeps: { (l : Self) → Keeps (own_length l) (own l) (admits l) };
}

// A layer over a rule.
#[derive(Drop)]
pub struct Layered<R, L> {
    pub below: R,
    pub layer: L,
}

// The states that a layer tells: its factor times those below, or 65,535 where that is larger.
pub fn told(below: usize, factor: usize) -> usize
    ensures { result ≡ product below factor }
{
    below.saturating_mul(factor).min(65535)
}

// A step below and a turn of the layer's own, as one; barred where either is.
pub fn overlay<C: Copy>(
    below: Option<Step<C>>,
    own: Option<usize>,
    factor: usize,
) -> Option<Step<C>>
    ensures { result ≡ overlaid factor below own }
{
    let step = below?;
    let next = step.next.checked_mul(factor)?.checked_add(own?)?;
    Some(Step { next, ..step })
}

impl<R: Rule, L: Layer> Rule for Layered<R, L> {
    type Cost = R::Cost;

    ghost trellis = { λ r. let t = R.Rule.trellis r.below in layered (layer_length (L.Layer.own_length r.layer) t.places) (L.Layer.own r.layer) t };

    ghost admits = { λ r bs. R.Rule.admits r.below bs && L.Layer.admits r.layer bs };

    ghost prices = { λ r bs. R.Rule.prices r.below bs };

    ghost meaning = { λ r h.
        let n = L.Layer.own_length r.layer in
        let o = L.Layer.own r.layer in
        let keeps = L.Layer.keeps r.layer in
        let t = R.Rule.trellis r.below in
        layered_lawful n o (L.Layer.admits r.layer) keeps t h (R.Rule.admits r.below) (R.Rule.prices r.below) (R.Rule.meaning r.below (layered_below n o (L.Layer.admits r.layer) keeps t h)) };

    // 0 where the lengths differ: a rule's length is a number, and one of length 0 has no further meaning.
    fn length(&self) -> usize {
        let below = self.below.length();
        match self.layer.own_length() {
            Some(own) if own != below => 0,
            _ => below,
        }
    }

    fn states(&self) -> usize {
        told(self.below.states(), self.layer.factor())
    }

    // A product that wraps is the start of no rule with further meaning.
    fn start(&self) -> usize {
        self.below
            .start()
            .wrapping_mul(self.layer.factor())
            .wrapping_add(self.layer.start())
    }

    fn is_end(&self, state: usize) -> bool {
        self.below.is_end(self.layer.outer(state)) && self.layer.is_end(self.layer.inner(state))
    }

    fn step(&self, place: usize, state: usize, flip: bool) -> Option<Step<R::Cost>> {
        // by `?` at once: carried on as options, the two cost a step of Rows over Free half as much again, where the flip
        // is known only when it runs
        let below = self.below.step(place, self.layer.outer(state), flip)?;
        let own = self.layer.turn(place, self.layer.inner(state), flip)?;
        overlay(Some(below), Some(own), self.layer.factor())
    }
}
