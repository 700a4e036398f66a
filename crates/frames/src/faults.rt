// Why a call refuses.
ghost use Rattle.std.specs.Prelude.{◌≡◌, Some};
ghost use Rattle.std.specs.Option.{option_map};
ghost use Rattle.frames.specs.Faults.{refusal, fault_text};
ghost use Rattle.frames.specs.declared.faults.Fault.TheVariants.{Memory};

use std::alloc::{AllocError, AllocFailed};
use std::fmt;

// The refusals of making and searching. Each has a number; want of memory has none.
#[derive(Clone, Copy, Debug, PartialEq, Eq)]
pub enum Fault {
    // 1: a length of 0 or above 128
    Length,
    // 2: the first place whose reading has a level that is no number, or above 127 in magnitude
    Level(usize),
    // 3: more rows than a part takes
    TooManyRows,
    // 4: a mark at or past the length
    Mark,
    // 4: the first row that has a mark at or past the length
    RowMark(usize),
    // 9: a cap above 7
    Cap,
    // 10: a field of 0 or over 16 places or past the length, low above high, or high too large for it
    Field,
    // no number: an allocation failed
    Memory,
}

impl Fault {
    // The number of a refusal; want of memory has none.
    pub fn number(self) -> Option<u8>
        ensures { result ≡ option_map (λ q. q.number) (refusal self) }
    {
        match self {
            Fault::Length => Some(1),
            Fault::Level(_) => Some(2),
            Fault::TooManyRows => Some(3),
            Fault::Mark | Fault::RowMark(_) => Some(4),
            Fault::Cap => Some(9),
            Fault::Field => Some(10),
            Fault::Memory => None,
        }
    }
}

// Written out, once for each of the library's two errors: a derive would not say what it gives.
impl From<AllocError> for Fault {
    ghost from_gives = { λ _ r. r ≡ Memory };

    fn from(_e: AllocError) -> Fault {
        Fault::Memory
    }
}

impl<T: Drop> From<AllocFailed<T>> for Fault {
    ghost from_gives = { λ _ r. r ≡ Memory };

    fn from(_e: AllocFailed<T>) -> Fault {
        Fault::Memory
    }
}

impl fmt::Display for Fault {
    ghost output = { λ x. Some (fault_text x) };

    fn fmt<W: fmt::Write>(&self, f: &mut fmt::Formatter<W>) -> fmt::Result {
        match self {
            Fault::Length => f.write_str("fault 1"),
            Fault::Level(place) => write!(f, "fault 2 level {place}"),
            Fault::TooManyRows => f.write_str("fault 3"),
            Fault::Mark => f.write_str("fault 4"),
            Fault::RowMark(row) => write!(f, "fault 4 row {row}"),
            Fault::Cap => f.write_str("fault 9"),
            Fault::Field => f.write_str("fault 10"),
            Fault::Memory => f.write_str("out of memory"),
        }
    }
}
