// The hard word and the weights of a frame of readings.
ghost use Rattle.std.specs.Prelude.{◌≡◌, not, position, IfOk};
ghost use Rattle.frames.specs.Cells.{is_good};
ghost use Rattle.frames.specs.Faults.{Answers};
ghost use Rattle.frames.specs.Frames.{frame_of, held, AllNear};

use crate::bits::Bits;
use crate::faults::Fault;
use crate::length::Length;
use crate::readings::Reading;
use crate::words::Word;
use std::alloc::Global;

// What a frame's readings say: the hard decision at each place, and what it costs to flip it. The weights stand
// beside the word, since rules take them without it.
#[derive(Drop)]
pub struct Frame {
    pub hard: Word,
    pub weights: Vec<u16>,
}

// The first place whose reading is not good.
pub fn first_bad(readings: &[Reading]) -> Option<usize>
    ensures { result ≡ position (λ r. not (is_good r)) readings.now }
{
    readings.iter().position(|reading| !reading.is_good())
}

impl Frame {
    // The frame of 1 to 128 good readings; of several bad ones the first is told.
    pub fn new(heap: Global, readings: &[Reading]) -> Result<Frame, Fault>
        ensures value { Answers held result (frame_of readings.now) }
        ensures near { IfOk result (λ f. AllNear readings.now f.weights.items) }
    {
        let len = Length::try_from(readings.len())?;
        if let Some(place) = first_bad(readings) {
            return Err(Fault::Level(place));
        }
        // A second pass: nothing is allocated before all readings are known to be good.
        let mut value: u128 = 0;
        let mut weights = Vec::new(heap);
        for reading in readings {
            let Some(cell) = reading.cell() else {
                unreachable()
            };
            value = value * 2 + u128::from(cell.bit);
            weights.push(cell.weight)?;
        }
        let bits = Bits::spell(len, value);
        Ok(Frame {
            hard: Word { bits },
            weights,
        })
    }
}
