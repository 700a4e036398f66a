// The lines that show a frame's cells.
ghost use Rattle.std.specs.Prelude.{◌≡◌, IfOk, Some, string_bytes};
ghost use Rattle.listing.specs.Shown.{spaced, lines_of};

use crate::reads::{ListFault, read_frame};
use frames::framing::Frame;
use std::alloc::{AllocError, Global};
use std::fmt;

// Weights, each printed after a space.
#[derive(Clone, Copy)]
struct Spaced<'a> {
    weights: &'a [u16],
}

impl fmt::Display for Spaced<'_> {
    ghost output = { λ x. Some (spaced x.weights.now) };

    fn fmt<W: fmt::Write>(&self, f: &mut fmt::Formatter<W>) -> fmt::Result {
        for weight in self.weights {
            write!(f, " {weight}")?;
        }
        Ok(())
    }
}

// What is printed of bytes that should hold 1 to 128 records: the hard bits and the weights, or a fault.
pub fn lines(heap: Global, bytes: &[u8]) -> Result<String, AllocError>
    ensures { IfOk result (λ text. string_bytes text ≡ lines_of bytes.now) }
{
    match read_frame(heap, bytes) {
        Ok(frame) => {
            let bits = frame.hard.bits;
            let weights = Spaced {
                weights: frame.weights.as_slice(),
            };
            format!(in heap; "hard {bits}\nweights{weights}\n")
        }
        Err(fault) => {
            fault.number().ok_or(AllocError)?;
            format!(in heap; "{fault}\n")
        }
    }
}
