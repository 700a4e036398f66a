// Bits with a length: what words, patterns and rows are made of.
ghost use Rattle.std.specs.Prelude.{◌≡◌, ◌^◌, ◌<◌, true};
ghost use Rattle.frames.specs.Halves.{unmarked};

use crate::halves::Halves;
use crate::length::Length;

pub mod iter;
pub mod ops;
pub mod text;

// So many places of the halves. No place at or past `len` is marked.
#[derive(Clone, Copy, Debug, PartialEq, Eq)]
pub struct Bits {
    len: Length,
    halves: Halves,
    ghost above: { halves.first < 2 ^ 64 },
    ghost below: { halves.second < 2 ^ 64 },
    ghost clean: { unmarked len.places halves.first halves.second ≡ true },
}
