// Sections: entries of one size that stand one right after another.
ghost use Rattle.std.specs.Prelude.{◌≡◌, ℕ, ◌+◌, ◌*◌, ◌^◌, ◌<◌, Bool, true, List, map, length, is_ok, IfOk, Ok, Err, MatchResult, Result};
ghost use Rattle.frames.specs.declared.readings.Reading.{Reading};
ghost use Rattle.jobfile.specs.Gathered.{gathered, with_meaning};
ghost use Rattle.jobfile.specs.RowPlaces.{places_of};

use crate::faults::{BadReading, BadRow};
use crate::records::read_record;
use crate::rows::{ends_before, row_of};
use frames::halves::Halves;
use frames::length::Length;
use frames::readings::Reading;
use std::alloc::{AllocError, Global};

// What a section holds, by the index of an entry, which a fault tells.
pub(crate) trait Section: Copy {
    type Entry: Drop;

    type Fault: Drop;

    // What an entry stands for.
    ghost Meaning: { Type 0 };

    ghost meaning: { Self.Entry → Meaning };

    // How many entries there are, and what each of them gives.
    ghost count: { Self → ℕ };

    ghost gives: { Self → ℕ → Result Meaning Self.Fault };

    fn len(&self) -> usize
        ensures { result ≡ count self.now };

    fn entry(&self, index: usize) -> Result<Self::Entry, Self::Fault>
        requires { index < count self.now }
        ensures { with_meaning meaning result ≡ gives self.now index };
}

// A section each of whose entries is good.
#[derive(Drop)]
pub(crate) struct Good<S: Section> {
    section: S,
    ghost good: { is_ok (gathered (S.gives section) (S.count section)) ≡ true },
}

impl<S: Section> Good<S> {
    // The section, if it has no fault, or else its first fault. By index, which the fault tells.
    pub(crate) fn new(section: S) -> Result<Good<S>, S::Fault>
        ensures { MatchResult result (λ g. g.section ≡ section) (λ e. gathered (S.gives section) (S.count section) ≡ Err e) }
    {
        for index in 0..section.len() {
            section.entry(index)?;
        }
        Ok(Good { section })
    }

    // The entries, in order. They are read again and not kept by `new`, which allocates nothing, so that a bad file has
    // its fault also where memory is short.
    pub(crate) fn entries(&self, heap: Global) -> Result<Vec<S::Entry>, AllocError>
        ensures { IfOk result (λ v. gathered (S.gives self.now.section) (S.count self.now.section) ≡ Ok (map S.meaning v.items)) }
    {
        let mut entries = Vec::new(heap);
        for index in 0..self.section.len() {
            let Ok(entry) = self.section.entry(index) else {
                unreachable()
            };
            entries.push(entry)?;
        }
        Ok(entries)
    }
}

// Records, of which the first stands at `at` in the file: a fault tells the place, which the slice does not know.
#[derive(Clone, Copy)]
pub(crate) struct Readings<'a> {
    pub(crate) records: &'a [[u8; 9]],
    pub(crate) at: usize,
    ghost inside: { at + 9 * length records.now < 2 ^ 64 },
}

impl Section for Readings<'_> {
    type Entry = Reading;

    type Fault = BadReading;

    ghost use Rattle.jobfile.specs.SectionsRead.{record_gives};

    ghost Meaning = { Reading };

    ghost meaning = { λ reading. reading };

    ghost count = { λ s. length s.records.now };

    ghost gives = { record_gives };

    fn len(&self) -> usize {
        self.records.len()
    }

    fn entry(&self, index: usize) -> Result<Reading, BadReading> {
        let byte = self.at + 9 * index;
        read_record(&self.records[index]).map_err(|cause| BadReading { cause, index, byte })
    }
}

// Rows of one length, of which the first stands at `at` in the file, which a fault tells.
#[derive(Clone, Copy)]
pub(crate) struct Rows<'a> {
    pub(crate) len: Length,
    pub(crate) rows: &'a [[u8; 16]],
    pub(crate) at: usize,
    ghost inside: { at + 16 * length rows.now < 2 ^ 64 },
}

impl Section for Rows<'_> {
    type Entry = Halves;

    type Fault = BadRow;

    ghost use Rattle.jobfile.specs.SectionsRead.{row_gives};

    ghost Meaning = { List Bool };

    ghost meaning = { places_of };

    ghost count = { λ s. length s.rows.now };

    ghost gives = { row_gives };

    fn len(&self) -> usize {
        self.rows.len()
    }

    fn entry(&self, index: usize) -> Result<Halves, BadRow> {
        let row = row_of(&self.rows[index]);
        if ends_before(self.len, row) {
            Ok(row)
        } else {
            Err(BadRow {
                index,
                byte: self.at + 16 * index,
            })
        }
    }
}
