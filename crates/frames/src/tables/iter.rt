// The rows of a table, one after another.
ghost use Rattle.std.specs.Prelude.{◌≡◌, ℕ, true, map, slice_index_or};
ghost use Rattle.std.specs.Iterator.{YieldsFirstBy, item_count};
ghost use Rattle.frames.specs.Rows.{holds_row, row_of, unset};
ghost use Rattle.frames.specs.Tables.{table_rows};
ghost use Rattle.frames.specs.Words.{places};

use crate::bits::Bits;
use crate::halves::Halves;
use crate::length::Length;
use crate::tables::RowTable;
use crate::words::Row;

// The rows that are left.
#[derive(Clone, Copy)]
pub struct Iter<'a> {
    len: Length,
    rest: &'a [Halves],
    ghost clean: { ((k : ℕ) → holds_row len.places (slice_index_or rest.now k unset) ≡ true) },
}

impl Iterator for Iter<'_> {
    type Item = Row;

    ghost next_gives = { YieldsFirstBy (λ row. places row.bits) (λ s. map (row_of s.len.places) s.rest.now) };

    ghost remaining = { item_count (λ s. map (row_of s.len.places) s.rest.now) };

    fn next(&mut self) -> Option<Row> {
        let (first, rest) = self.rest.split_first()?;
        self.rest = rest;
        Some(Row {
            bits: Bits::of_clean(self.len, *first),
        })
    }
}

impl RowTable {
    // Each row in order.
    pub fn iter(&self) -> Iter<'_>
        ensures { map (row_of result.len.places) result.rest.now ≡ table_rows self.now }
    {
        Iter {
            len: self.len,
            rest: self.halves.as_slice(),
        }
    }
}

impl<'a> IntoIterator for &'a RowTable {
    type Item = Row;

    type IntoIter = Iter<'a>;

    ghost into_iter_gives = { λ table it. map (row_of it.len.places) it.rest.now ≡ table_rows table.now };

    fn into_iter(self) -> Iter<'a> {
        self.iter()
    }
}
