// Free: every pattern, and each flip costs its cell's price.
ghost use Rattle.std.specs.Prelude.{◌≡◌, true};
ghost use Rattle.frames.specs.Faults.{Answers};
ghost use Rattle.rules.specs.Free.{cell_prices, free_move, free_trellis};
ghost use Rattle.weights.specs.Price.{worth};
ghost use Rattle.rules.specs.Made.{cells_from};
ghost use Rattle.rules.specs.FreeLaw.{free_lawful};

use crate::cells::CellWeights;
use crate::rule::Rule;
use crate::step::Step;
use frames::faults::Fault;
use std::alloc::Global;
use std::marker::PhantomData;
use weights::weight::Weight;

// One state.
#[derive(Drop)]
pub struct Free<W> {
    cells: CellWeights,
    kind: PhantomData<W>,
}

// What a place costs where nothing but a flip costs: the price of the weight, or nothing.
pub fn flip_cost<W: Weight>(weight: u16, flip: bool) -> W
    ensures { W.value result ≡ worth W.model (free_move weight flip).fees }
{
    if flip { W::flip(weight) } else { W::zero() }
}

impl<W: Weight> Free<W> {
    // The rule over cells of these weights, 1 to 128 of them.
    pub fn new(heap: Global, weights: &[u16]) -> Result<Free<W>, Fault>
        ensures { Answers (λ f. f.cells.weights.items) result (cells_from weights.now) }
    {
        let cells = CellWeights::new(heap, weights)?;
        Ok(Free {
            cells,
            kind: PhantomData,
        })
    }
}

impl<W: Weight> Rule for Free<W> {
    type Cost = W;

    ghost trellis = { λ r. free_trellis r.cells.weights.items };

    ghost admits = { λ r bs. true };

    ghost prices = { λ r bs. cell_prices r.cells.weights.items bs };

    ghost meaning = { λ r h. free_lawful r.cells.weights.items r.cells.fit };

    fn length(&self) -> usize {
        self.cells.len()
    }

    fn states(&self) -> usize {
        1
    }

    fn start(&self) -> usize {
        0
    }

    fn is_end(&self, state: usize) -> bool {
        state < 1
    }

    fn step(&self, place: usize, state: usize, flip: bool) -> Option<Step<W>> {
        if state >= 1 {
            return None;
        }
        let cost = flip_cost(self.cells.get(place)?, flip);
        Some(Step { next: 0, cost })
    }
}
