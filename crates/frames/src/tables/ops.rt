// Making a table of rows, and reading it.
ghost use Rattle.std.specs.Prelude.{◌≡◌, not, length, position};
ghost use Rattle.std.specs.Option.{option_map};
ghost use Rattle.std.specs.List.{slice_get};
ghost use Rattle.frames.specs.Faults.{Answers};
ghost use Rattle.frames.specs.Rows.{holds_row, rows_of};
ghost use Rattle.frames.specs.Tables.{table_of, table_rows};
ghost use Rattle.frames.specs.Words.{places};

use crate::bits::Bits;
use crate::faults::Fault;
use crate::halves::Halves;
use crate::length::Length;
use crate::tables::RowTable;
use crate::words::Row;
use std::alloc::Global;

// The first row with a mark at or past `len`.
fn first_marked(len: Length, rows: &[Halves]) -> Option<usize>
    ensures { result ≡ position (λ row. not (holds_row len.places row)) rows.now }
{
    rows.iter().position(|row| !row.ends_before(len))
}

impl RowTable {
    // The table of these rows; of several bad ones the first is told.
    pub fn new(heap: Global, row_len: usize, rows: &[Halves]) -> Result<RowTable, Fault>
        ensures { Answers table_of result (rows_of row_len rows.now) }
    {
        let len = Length::try_from(row_len)?;
        if let Some(row) = first_marked(len, rows) {
            return Err(Fault::RowMark(row));
        }
        let halves = rows.to_vec(heap)?;
        Ok(RowTable { len, halves })
    }

    // The length that every row has.
    pub fn row_len(&self) -> usize
        ensures { result ≡ (table_of self.now).0 }
    {
        usize::from(self.len)
    }

    // How many rows there are.
    pub fn len(&self) -> usize
        ensures { result ≡ length (table_rows self.now) }
    {
        self.halves.len()
    }

    // The row at an index; none past the last.
    pub fn row(&self, index: usize) -> Option<Row>
        ensures { option_map (λ w. places w.bits) result ≡ slice_get (table_rows self.now) index }
    {
        let halves = *self.halves.get(index)?;
        Some(Row {
            bits: Bits::of_clean(self.len, halves),
        })
    }
}
