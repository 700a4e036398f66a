// Readings of the tape, and the cells that they give.
ghost use Rattle.std.specs.Prelude.{◌≡◌, true, T, IfSome};
ghost use Rattle.std.specs.Float.{binary32};
ghost use Rattle.std.specs.Float.Ieee.{add, fits};
ghost use Rattle.frames.specs.Cells.{is_level, is_good, is_sum, cell_at, cell_for, cell_of};
ghost use Rattle.frames.specs.Near.{NearFor};

use std::num::saturating_f32_to_u16;

// What the two tracks of a tape read at one place.
#[derive(Clone, Copy, Debug, PartialEq)]
pub struct Levels {
    pub left: f32,
    pub right: f32,
}

// One place of a frame as it was read: nothing, one level, or one from each of two tracks.
#[derive(Clone, Copy, Debug, PartialEq)]
pub enum Reading {
    Dropout,
    Single(f32),
    Pair(Levels),
}

// The hard decision at a place, and how much it costs to flip it.
#[derive(Clone, Copy, Debug, PartialEq, Eq)]
pub struct Cell {
    pub bit: bool,
    pub weight: u16,
}

// Whether y is a number of magnitude at most 127.
fn is_level(y: f32) -> bool
    ensures value { result ≡ is_level y }
    ensures held { T (fits binary32 y) }
{
    y.abs() <= 127.0
}

// The cell of a level, or of a sum of two.
fn weigh(y: f32) -> Cell
    requires { T (is_sum y) }
    ensures { result ≡ cell_at y }
{
    Cell {
        bit: y < 0.0,
        weight: saturating_f32_to_u16(y.abs() * 256.0),
    }
}

// Whether both levels of a pair are numbers of magnitude at most 127.
fn are_levels(p: Levels) -> bool
    ensures value { result ≡ is_good (Reading.Pair p) }
    ensures sum { T result → T (is_sum (add binary32 p.left p.right)) }
    ensures near { T result → NearFor (Reading.Pair p) (cell_for (Reading.Pair p)).weight }
{
    is_level(p.left) && is_level(p.right)
}

impl Reading {
    // Whether each level is a number of magnitude at most 127.
    pub fn is_good(self) -> bool
        ensures { result ≡ is_good self }
    {
        match self {
            Reading::Dropout => true,
            Reading::Single(y) => is_level(y),
            Reading::Pair(p) => are_levels(p),
        }
    }

    // The cell of a good reading; none of any other. A pair is added with one rounding.
    pub fn cell(self) -> Option<Cell>
        ensures value { result ≡ cell_of self }
        ensures near { IfSome result (λ c. NearFor self c.weight) }
    {
        match self {
            Reading::Dropout => Some(Cell {
                bit: false,
                weight: 0,
            }),
            Reading::Single(y) => is_level(y).then(|| weigh(y)),
            Reading::Pair(p) => are_levels(p).then(|| weigh(p.left + p.right)),
        }
    }
}
