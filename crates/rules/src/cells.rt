// The weights of cells, as Free and Burst hold them.
ghost use Rattle.std.specs.Prelude.{◌≡◌, ℕ, ◌<◌, length, slice_index};
ghost use Rattle.std.specs.List.{slice_get};
ghost use Rattle.frames.specs.Faults.{Answers};
ghost use Rattle.rules.specs.Made.{cells_from};

use frames::faults::Fault;
use frames::length::Length;
use std::alloc::Global;

// The weights of 1 to 128 cells, which are numbers below 65,536.
#[derive(Drop)]
pub struct CellWeights {
    weights: Vec<u16>,
    ghost fit: { ((k : ℕ) → slice_index weights.items k < 65536) },
}

impl CellWeights {
    // The weights handed in, 1 to 128 of them.
    pub fn new(heap: Global, weights: &[u16]) -> Result<CellWeights, Fault>
        ensures { Answers (λ c. c.weights.items) result (cells_from weights.now) }
    {
        Length::try_from(weights.len())?;
        let weights = weights.to_vec(heap)?;
        Ok(CellWeights { weights })
    }

    // How many cells there are.
    pub fn len(&self) -> usize
        ensures { result ≡ length self.now.weights.items }
    {
        self.weights.len()
    }

    // The weight of the cell at a place; none past the last.
    pub fn get(&self, place: usize) -> Option<u16>
        ensures { result ≡ slice_get self.now.weights.items place }
    {
        self.weights.get(place).copied()
    }
}
