// Why a file is refused, and where.
ghost use Rattle.std.specs.Prelude.{◌≡◌, Some};
ghost use Rattle.jobfile.specs.declared.faults.FileFault.TheVariants.{Section, Memory};
ghost use Rattle.jobfile.specs.declared.faults.SectionFault.TheVariants.{Reading, Row};
ghost use Rattle.jobfile.specs.FaultTexts.{bad_reading_text, bad_row_text, section_fault_text, file_fault_text, fault_number};

use crate::records::ReadingFault;
use std::alloc::{AllocError, AllocFailed};
use std::error::Error;
use std::fmt;

// A record that gives no reading: why, which one it is, and the place of its first byte in the file.
#[derive(Clone, Copy, Debug, PartialEq, Eq)]
pub struct BadReading {
    pub cause: ReadingFault,
    pub index: usize,
    pub byte: usize,
}

// A row with a mark at or past the length: which one it is, and the place of its first byte in the file. No struct
// shares the two numbers with `BadReading`: it would be one more name in each definition and no line less.
#[derive(Clone, Copy, Debug, PartialEq, Eq)]
pub struct BadRow {
    pub index: usize,
    pub byte: usize,
}

// What is wrong in a section.
#[derive(Clone, Copy, Debug, PartialEq, Eq)]
pub enum SectionFault {
    // 31: the first record that gives no reading
    Reading(BadReading),
    // 35: the first row with a mark at or past the length
    Row(BadRow),
}

// Why a file is not read or written. Each has a number; want of memory has none.
#[derive(Clone, Copy, Debug, PartialEq, Eq)]
pub enum FileFault {
    // 32: too few bytes for a trailer, too many for a file, or a last byte that is not the mark
    Form,
    // 33: a number that a job may not have
    Numbers,
    // 34: a section that reaches into the trailer or into the other section
    Layout,
    // 31 and 35: a section whose contents are bad
    Section(SectionFault),
    // 36: too few bytes to write to
    Room,
    // no number: an allocation failed
    Memory,
}

impl FileFault {
    // The number of a fault; want of memory has none.
    pub fn number(&self) -> Option<u8>
        ensures { result ≡ fault_number self.now }
    {
        match self {
            FileFault::Section(SectionFault::Reading(_)) => Some(31),
            FileFault::Form => Some(32),
            FileFault::Numbers => Some(33),
            FileFault::Layout => Some(34),
            FileFault::Section(SectionFault::Row(_)) => Some(35),
            FileFault::Room => Some(36),
            FileFault::Memory => None,
        }
    }
}

impl From<BadReading> for SectionFault {
    ghost from_gives = { λ e r. r ≡ Reading e };

    fn from(e: BadReading) -> SectionFault {
        SectionFault::Reading(e)
    }
}

impl From<BadRow> for SectionFault {
    ghost from_gives = { λ e r. r ≡ Row e };

    fn from(e: BadRow) -> SectionFault {
        SectionFault::Row(e)
    }
}

impl From<SectionFault> for FileFault {
    ghost from_gives = { λ e r. r ≡ Section e };

    fn from(e: SectionFault) -> FileFault {
        FileFault::Section(e)
    }
}

// Written out, once for each of the library's two errors: a derive would not say what it gives.
impl From<AllocError> for FileFault {
    ghost from_gives = { λ _ r. r ≡ Memory };

    fn from(_e: AllocError) -> FileFault {
        FileFault::Memory
    }
}

impl<T: Drop> From<AllocFailed<T>> for FileFault {
    ghost from_gives = { λ _ r. r ≡ Memory };

    fn from(_e: AllocFailed<T>) -> FileFault {
        FileFault::Memory
    }
}

impl fmt::Display for BadReading {
    ghost output = { λ x. Some (bad_reading_text x) };

    fn fmt<W: fmt::Write>(&self, f: &mut fmt::Formatter<W>) -> fmt::Result {
        let BadReading { cause, index, byte } = *self;
        write!(f, "fault 31 {cause} {index} {byte}")
    }
}

impl fmt::Display for BadRow {
    ghost output = { λ x. Some (bad_row_text x) };

    fn fmt<W: fmt::Write>(&self, f: &mut fmt::Formatter<W>) -> fmt::Result {
        let BadRow { index, byte } = *self;
        write!(f, "fault 35 row {index} {byte}")
    }
}

impl fmt::Display for SectionFault {
    ghost output = { λ x. Some (section_fault_text x) };

    fn fmt<W: fmt::Write>(&self, f: &mut fmt::Formatter<W>) -> fmt::Result {
        match self {
            SectionFault::Reading(fault) => write!(f, "{fault}"),
            SectionFault::Row(fault) => write!(f, "{fault}"),
        }
    }
}

impl fmt::Display for FileFault {
    ghost output = { λ x. Some (file_fault_text x) };

    fn fmt<W: fmt::Write>(&self, f: &mut fmt::Formatter<W>) -> fmt::Result {
        match self {
            FileFault::Form => f.write_str("fault 32"),
            FileFault::Numbers => f.write_str("fault 33"),
            FileFault::Layout => f.write_str("fault 34"),
            FileFault::Section(fault) => write!(f, "{fault}"),
            FileFault::Room => f.write_str("fault 36"),
            FileFault::Memory => f.write_str("out of memory"),
        }
    }
}

impl Error for FileFault {}
