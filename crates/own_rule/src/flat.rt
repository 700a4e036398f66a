// A rule: every pattern of its length, and each flip costs the same.
ghost use Rattle.std.specs.Prelude.{◌≡◌, ◌<◌, true, replicate};
ghost use Rattle.frames.specs.Places.{marks};
ghost use Rattle.own_rule.specs.Flat.{flat_trellis};
ghost use Rattle.weights.specs.declared.price.Price.TheVariants.{Flip};
ghost use Rattle.own_rule.specs.FlatLaw.{flat_lawful};

use rules::free::flip_cost;
use rules::rule::Rule;
use rules::step::Step;
use std::marker::PhantomData;
use weights::weight::Weight;

// One state, as Free has; the price of a flip is a number below 65,536.
#[derive(Drop)]
pub struct Flat<W> {
    len: usize,
    price: u16,
    kind: PhantomData<W>,
    ghost low: { price < 65536 },
}

impl<W: Weight> Flat<W> {
    // The rule over `len` places, each flip at `price`.
    pub fn new(len: usize, price: u16) -> Flat<W>
        ensures len { result.len ≡ len }
        ensures price { result.price ≡ price }
    {
        Flat {
            len,
            price,
            kind: PhantomData,
        }
    }
}

impl<W: Weight> Rule for Flat<W> {
    type Cost = W;

    ghost trellis = { λ r. flat_trellis r.len r.price };

    ghost admits = { λ r bs. true };

    ghost prices = { λ r bs. replicate (marks bs) (Flip r.price) };

    ghost meaning = { λ r h. flat_lawful r.len r.price r.low };

    fn length(&self) -> usize {
        self.len
    }

    fn states(&self) -> usize {
        1
    }

    fn start(&self) -> usize {
        0
    }

    fn is_end(&self, state: usize) -> bool {
        state < 1
    }

    fn step(&self, place: usize, state: usize, flip: bool) -> Option<Step<W>> {
        if place >= self.len || state >= 1 {
            return None;
        }
        let cost = flip_cost(self.price, flip);
        Some(Step { next: 0, cost })
    }
}
