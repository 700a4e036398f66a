// At most six rows of one length, read into bytes: one bit for each row, the first row's the lowest.
ghost use Rattle.std.specs.Prelude.{◌≡◌, ◌≤◌, Bool, List, map, length, IfOk};
ghost use Rattle.frames.specs.Faults.{Answers};
ghost use Rattle.frames.specs.Tables.{table_of, table_rows};
ghost use Rattle.frames.specs.Words.{places};
ghost use Rattle.rules.specs.Rows.{columns_of, marks_at, packed, parities, rows_from};

use frames::faults::Fault;
use frames::halves::Halves;
use frames::tables::RowTable;
use frames::words::{Row, Word};
use std::alloc::{AllocError, Global};

// The most rows of one layer.
const MOST: usize = 6;

// A table of at most six rows.
#[derive(Drop)]
pub struct FewRows {
    table: RowTable,
    ghost few: { length (table_rows table) ≤ 6 },
}

impl FewRows {
    // These rows, at most 6, of the word's length.
    pub fn new(heap: Global, word: &Word, rows: &[Halves]) -> Result<FewRows, Fault>
        ensures { Answers (λ r. table_of r.table) result (rows_from (length (places word.now.bits)) rows.now) }
    {
        if rows.len() > MOST {
            return Err(Fault::TooManyRows);
        }
        let table = RowTable::new(heap, word.bits.len(), rows)?;
        Ok(FewRows { table })
    }

    // How many rows there are.
    pub fn len(&self) -> usize
        ensures number { result ≡ length (table_rows self.now.table) }
        ensures few { result ≤ 6 }
    {
        self.table.len()
    }

    // What a test says of each row, packed.
    fn pack<F: Fn(Row) -> bool>(&self, test: F) -> u8
        requires { F.IsAlwaysCallable test }
        ensures { (says : List Bool → Bool) → ((row : _) (b : _) → F.post test row b → b ≡ says (places row.bits)) → result ≡ packed (map says (table_rows self.now.table)) }
    {
        let mut bits = 0;
        for (index, row) in self.table.iter().enumerate() {
            bits += u8::from(test(row)) << index;
        }
        bits
    }

    // The marks of all rows at a place.
    fn column(&self, place: usize) -> u8
        ensures { result ≡ marks_at place (table_rows self.now.table) }
    {
        self.pack(|row| row.bits.bit(place).unwrap_or(false))
    }

    // The parities of a word over all rows.
    pub fn parities(&self, word: &Word) -> u8
        ensures { result ≡ parities (places word.now.bits) (table_rows self.now.table) }
    {
        self.pack(|row| word.bits.parity(&row))
    }

    // A column for each of `len` places.
    pub fn columns(&self, heap: Global, len: usize) -> Result<Vec<u8>, AllocError>
        ensures { IfOk result (λ v. v.items ≡ columns_of len (table_rows self.now.table)) }
    {
        (0..len).map(|place| self.column(place)).collect(heap)
    }
}
