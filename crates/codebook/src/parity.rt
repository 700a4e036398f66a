// The row test: even parity over each row.
ghost use Rattle.std.specs.Prelude.{length};
ghost use Rattle.frames.specs.Faults.{Answers};
ghost use Rattle.frames.specs.Tables.{table_of};
ghost use Rattle.codebook.specs.Parity.{row_test_of, accepted_by_rows, even_over};
ghost use Rattle.codebook.specs.Sizes.{tested_length};

use crate::testing::Test;
use frames::faults::Fault;
use frames::halves::Halves;
use frames::length::Length;
use frames::tables::RowTable;
use frames::words::Word;
use std::alloc::Global;

// The most rows of a test.
const MOST: usize = 32;

// At most 32 rows of one length: accepts a word with even parity over each.
#[derive(Drop)]
pub struct RowTest {
    table: RowTable,
}

impl RowTest {
    // The test of these rows; of several bad ones the first is told.
    pub fn new(heap: Global, len: usize, rows: &[Halves]) -> Result<RowTest, Fault>
        ensures { Answers (λ t. table_of t.table) result (row_test_of len rows.now) }
    {
        Length::try_from(len)?;
        if rows.len() > MOST {
            return Err(Fault::TooManyRows);
        }
        let table = RowTable::new(heap, len, rows)?;
        Ok(RowTest { table })
    }
}

impl Test for RowTest {
    ghost size = { λ t. (table_of t.table).0 };

    ghost accepted = { λ t w. accepted_by_rows (table_of t.table) w };

    ghost sized = { λ t w e. tested_length (length w) (table_of t.table).0 (even_over (table_of t.table).1 w) e };

    fn len(&self) -> usize {
        self.table.row_len()
    }

    fn accepts(&self, word: &Word) -> bool {
        if word.bits.len() != self.table.row_len() {
            return false;
        }
        // over all rows, and not to the first odd one alone
        let mut even = true;
        for row in &self.table {
            even &= !word.bits.parity(&row);
        }
        even
    }
}
