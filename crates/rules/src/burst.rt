// Burst: every pattern, each flip costs its cell's price, and the first flip of a run costs a surcharge too.
ghost use Rattle.std.specs.Prelude.{◌≡◌, ◌<◌, true, false, IfOk};
ghost use Rattle.frames.specs.Faults.{Answers};
ghost use Rattle.rules.specs.Burst.{burst_move, burst_prices, burst_trellis};
ghost use Rattle.weights.specs.Price.{worth};
ghost use Rattle.rules.specs.Made.{cells_from};
ghost use Rattle.rules.specs.BurstLaw.{burst_lawful};

use crate::cells::CellWeights;
use crate::rule::Rule;
use crate::step::Step;
use frames::faults::Fault;
use std::alloc::Global;
use std::marker::PhantomData;
use weights::weight::Weight;

// Two states: 1 after a flip, else 0. They are numbers, since a rule's states are.
#[derive(Drop)]
pub struct Burst<W> {
    cells: CellWeights,
    surcharge: u16,
    kind: PhantomData<W>,
    ghost low: { surcharge < 65536 },
}

impl<W: Weight> Burst<W> {
    // The rule over cells of these weights, 1 to 128 of them.
    pub fn new(heap: Global, weights: &[u16], surcharge: u16) -> Result<Burst<W>, Fault>
        ensures cells { Answers (λ f. f.cells.weights.items) result (cells_from weights.now) }
        ensures surcharge { IfOk result (λ f. f.surcharge ≡ surcharge) }
    {
        let cells = CellWeights::new(heap, weights)?;
        Ok(Burst {
            cells,
            surcharge,
            kind: PhantomData,
        })
    }

    // What a step costs from a state, at a cell of this weight.
    fn cost(&self, weight: u16, state: usize, flip: bool) -> W
        ensures { W.value result ≡ worth W.model (burst_move self.now.surcharge state weight flip).fees }
    {
        if !flip {
            return W::zero();
        }
        let price = W::flip(weight);
        if state == 1 {
            price
        } else {
            price.plus(W::surcharge(self.surcharge))
        }
    }
}

impl<W: Weight> Rule for Burst<W> {
    type Cost = W;

    ghost trellis = { λ r. burst_trellis r.surcharge r.cells.weights.items };

    ghost admits = { λ r bs. true };

    ghost prices = { λ r bs. burst_prices r.surcharge false r.cells.weights.items bs };

    ghost meaning = { λ r h. burst_lawful r.surcharge r.cells.weights.items r.cells.fit r.low };

    fn length(&self) -> usize {
        self.cells.len()
    }

    fn states(&self) -> usize {
        2
    }

    fn start(&self) -> usize {
        0
    }

    fn is_end(&self, state: usize) -> bool {
        state < 2
    }

    fn step(&self, place: usize, state: usize, flip: bool) -> Option<Step<W>> {
        if state >= 2 {
            return None;
        }
        let cost = self.cost(self.cells.get(place)?, state, flip);
        Some(Step {
            next: usize::from(flip),
            cost,
        })
    }
}
