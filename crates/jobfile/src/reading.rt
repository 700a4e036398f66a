// Reading a file: its sections, and the job that they hold.
ghost use Rattle.std.specs.Prelude.{◌≡◌, IfOk, Ok, Err, vec_items, MatchResult};
ghost use Rattle.jobfile.specs.Files.{of_readings, readings_in, rows_in, readings_of, job_of_trailer, job_of, Answers};
ghost use Rattle.jobfile.specs.Jobs.{contents};
ghost use Rattle.jobfile.specs.SectionsRead.{readings_here, rows_here};
ghost use Rattle.jobfile.specs.Trailers.{trailer_in};
ghost use Rattle.jobfile.specs.Written.{job_bytes, InWrittenLayout};

use crate::faults::{FileFault, SectionFault};
use crate::jobs::Job;
use crate::sections::{Good, Readings, Rows};
use crate::trailers::Trailer;
use crate::trailers::ops::read_trailer;
use frames::length::Length;
use frames::readings::Reading;
use std::alloc::Global;

// The records of bytes that hold records and nothing else, if each of them gives a reading.
fn good_records(bytes: &[u8]) -> Result<Good<Readings<'_>>, SectionFault>
    ensures { MatchResult result (λ g. of_readings (readings_here g.section) ≡ readings_of bytes.now) (λ e. readings_of bytes.now ≡ Err (FileFault.Section e)) }
{
    let (records, _) = bytes.as_chunks();
    Ok(Good::new(Readings { records, at: 0 })?)
}

// The readings of bytes that hold whole records and nothing else; of several bad ones the first is told.
pub fn read_readings(heap: Global, bytes: &[u8]) -> Result<Vec<Reading>, FileFault>
    ensures { Answers vec_items result (readings_of bytes.now) }
{
    Ok(good_records(bytes)?.entries(heap)?)
}

// A file whose trailer is good.
#[derive(Clone, Copy)]
struct File<'a> {
    bytes: &'a [u8],
    trailer: Trailer,
    ghost told: { Ok trailer ≡ trailer_in bytes.now },
}

impl<'a> File<'a> {
    // Its readings. Their place is 32 bits wide in a file, and `usize` has no `From<u32>`.
    fn readings(&self) -> Readings<'a>
        ensures { readings_here result ≡ readings_in self.now.bytes.now self.now.trailer }
    {
        let at = self.trailer.readings_at as usize;
        let len = 9 * usize::from(self.trailer.n);
        let (records, _) = self.bytes[at..at + len].as_chunks();
        Readings { records, at }
    }

    // Its rows; where there are none, their place may be past the end. That n is a length follows from `told`;
    // the type of `try_from` does not say it.
    fn rows(&self) -> Rows<'a>
        ensures { rows_here result ≡ rows_in self.now.bytes.now self.now.trailer }
    {
        let Ok(len) = Length::try_from(usize::from(self.trailer.n)) else {
            unreachable()
        };
        let at = self.trailer.rows_at as usize;
        let size = 16 * usize::from(self.trailer.rows);
        let section = self.bytes.get(at..at + size).unwrap_or(&[]);
        let (rows, _) = section.as_chunks();
        Rows { len, rows, at }
    }

    // Both sections, or the first fault in them.
    fn sections(&self) -> Result<(Good<Readings<'a>>, Good<Rows<'a>>), SectionFault>
        ensures { MatchResult result (λ p. (readings_here p.0.section ≡ readings_in self.now.bytes.now self.now.trailer) × (rows_here p.1.section ≡ rows_in self.now.bytes.now self.now.trailer)) (λ e. job_of_trailer self.now.bytes.now (Ok self.now.trailer) ≡ Err (FileFault.Section e)) }
    {
        let readings = Good::new(self.readings())?;
        let rows = Good::new(self.rows())?;
        Ok((readings, rows))
    }

    // The job that it holds.
    fn job(&self, heap: Global) -> Result<Job, FileFault>
        ensures { Answers contents result (job_of_trailer self.now.bytes.now (Ok self.now.trailer)) }
    {
        let (readings, rows) = self.sections()?;
        Ok(Job {
            readings: readings.entries(heap)?,
            rows: rows.entries(heap)?,
            guessed: usize::from(self.trailer.guessed),
            limit: usize::from(self.trailer.limit),
            kind: self.trailer.kind,
        })
    }
}

// The job of a file, wherever its sections stand, or the file's first fault.
pub fn read(heap: Global, bytes: &[u8]) -> Result<Job, FileFault>
    ensures value { Answers contents result (job_of bytes.now) }
    ensures back { IfOk result (λ job. InWrittenLayout bytes.now → job_bytes (contents job) ≡ bytes.now) }
{
    let trailer = read_trailer(bytes)?;
    File { bytes, trailer }.job(heap)
}
