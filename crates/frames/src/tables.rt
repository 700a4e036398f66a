// A table of rows of one length.
ghost use Rattle.std.specs.Prelude.{◌≡◌, ℕ, true, slice_index_or};
ghost use Rattle.frames.specs.Rows.{holds_row, unset};

use crate::halves::Halves;
use crate::length::Length;

pub mod iter;
pub mod ops;

// Rows as plain halves, none with a mark at or past `len`.
#[derive(Drop)]
pub struct RowTable {
    len: Length,
    halves: Vec<Halves>,
    ghost clean: { ((k : ℕ) → holds_row len.places (slice_index_or halves.items k unset) ≡ true) },
}
