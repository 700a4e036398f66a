// Rows: what the rule below admits, with the hard word's parity over each row.
ghost use Rattle.std.specs.Prelude.{◌≡◌, Some, length, IfOk};
ghost use Rattle.frames.specs.Faults.{Answers};
ghost use Rattle.frames.specs.Tables.{table_of, table_rows};
ghost use Rattle.frames.specs.Words.{places};
ghost use Rattle.rules.specs.Rows.{alike, columns_of, parities, rows_from, rows_own};
ghost use Rattle.rules.specs.RowsLaw.{rows_keep};

use crate::layer::{Layer, Layered};
use crate::rows::few::FewRows;
use crate::rule::Rule;
use frames::faults::Fault;
use frames::halves::Halves;
use frames::words::Word;
use std::alloc::Global;

pub mod few;

// The hard word and the rows. The own state is the parities so far, one bit for each row.
// The columns, and the goal (the hard word's parities), are packed in the same way, so that a step takes one exclusive
// or. They follow from the hard word and the rows, and are kept to save the work of each step.
#[derive(Drop)]
pub struct Parities {
    hard: Word,
    rows: FewRows,
    columns: Vec<u8>,
    goal: u8,
    ghost cut: { columns.items ≡ columns_of (length (places hard.bits)) (table_rows rows.table) },
    ghost aimed: { goal ≡ parities (places hard.bits) (table_rows rows.table) },
}

// The layer of rows over a rule.
pub type Rows<R> = Layered<R, Parities>;

impl<R: Rule + Drop> Rows<R> {
    // The layer of these rows, at most 6, for a hard word of the layer's own length.
    pub fn new(heap: Global, below: R, hard: Word, rows: &[Halves]) -> Result<Rows<R>, Fault>
        ensures table { Answers (λ w. table_of w.layer.rows.table) result (rows_from (length (places hard.bits)) rows.now) }
        ensures parts { IfOk result (λ w. (w.below ≡ below) × (w.layer.hard ≡ hard)) }
    {
        let rows = FewRows::new(heap, &hard, rows)?;
        let columns = rows.columns(heap, hard.bits.len())?;
        let goal = rows.parities(&hard);
        let layer = Parities {
            hard,
            rows,
            columns,
            goal,
        };
        Ok(Layered { below, layer })
    }
}

impl Layer for Parities {
    ghost own_length = { λ l. Some (length (places l.hard.bits)) };

    ghost own = { λ l. rows_own (table_rows l.rows.table) (places l.hard.bits) };

    ghost admits = { λ l bs. alike (table_rows l.rows.table) bs (places l.hard.bits) };

    ghost keeps = { λ l. rows_keep (table_rows l.rows.table) (places l.hard.bits) (Some (length (places l.hard.bits))) };

    fn own_length(&self) -> Option<usize> {
        Some(self.hard.bits.len())
    }

    fn factor(&self) -> usize {
        1 << self.rows.len()
    }

    fn start(&self) -> usize {
        0
    }

    fn is_end(&self, own_state: usize) -> bool {
        own_state == usize::from(self.goal)
    }

    fn turn(&self, place: usize, own_state: usize, flip: bool) -> Option<usize> {
        let column = *self.columns.get(place)?;
        Some(if flip {
            own_state ^ usize::from(column)
        } else {
            own_state
        })
    }

    // A shift, since the factor is a power of two.
    fn outer(&self, state: usize) -> usize {
        state >> self.rows.len()
    }

    // A mask, since the factor is a power of two.
    fn inner(&self, state: usize) -> usize {
        state & (self.factor() - 1)
    }
}
