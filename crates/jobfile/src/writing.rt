// Writing a job: its checks, and its bytes without gaps.
ghost use Rattle.std.specs.Prelude.{◌≡◌, ◌+◌, ◌*◌, ◌≤◌, true, not, ◌++◌, length, position, take, drop, All, IfOk, None, Ok};
ghost use Rattle.std.specs.Option.{option_map};
ghost use Rattle.std.specs.Result.{result_err};
ghost use Rattle.std.specs.List.{flat_map};
ghost use Rattle.frames.specs.Cells.{is_good};
ghost use Rattle.jobfile.specs.Files.{job_of};
ghost use Rattle.jobfile.specs.Gathered.{with_meaning};
ghost use Rattle.jobfile.specs.Jobs.{contents};
ghost use Rattle.jobfile.specs.Records.{AllHeld};
ghost use Rattle.jobfile.specs.RowPlaces.{places_of, ends_before};
ghost use Rattle.jobfile.specs.Trailers.{is_good_trailer};
ghost use Rattle.jobfile.specs.JobFaults.{bad_reading_of, bad_row_of, section_fault_of, job_fault};
ghost use Rattle.jobfile.specs.Pasted.{pasted};
ghost use Rattle.jobfile.specs.Writes.{written_of, overwritten};
ghost use Rattle.jobfile.specs.Written.{trailer_for, job_bytes};

use crate::entries::Entry;
use crate::faults::{BadReading, BadRow, FileFault, SectionFault};
use crate::jobs::Job;
use crate::records::ReadingFault;
use crate::rows::ends_before;
use crate::trailers::{Numbers, Trailer};
use frames::framing::first_bad;
use frames::halves::Halves;
use frames::length::Length;
use frames::readings::Reading;

// The first row with a mark at or past the length.
fn bad_row(len: Length, rows: &[Halves]) -> Option<usize>
    ensures { result ≡ position (λ row. not (ends_before len.places (places_of row))) rows.now }
{
    rows.iter().position(|row| !ends_before(len, *row))
}

// Whether both sections of a job can be written, if its numbers are good.
fn check_sections(len: Length, job: &Job) -> Result<(), SectionFault>
    requires good { is_good_trailer (trailer_for (contents job.now)) ≡ true }
    requires measured { len.places ≡ length (contents job.now).readings }
    ensures { option_map FileFault.Section (result_err result) ≡ section_fault_of (bad_reading_of (contents job.now).readings) (bad_row_of (length (contents job.now).readings) (contents job.now).rows) }
{
    if let Some(index) = first_bad(&job.readings) {
        let fault = BadReading {
            cause: ReadingFault::Level,
            index,
            byte: 9 * index,
        };
        return Err(fault.into());
    }
    if let Some(index) = bad_row(len, &job.rows) {
        let byte = 9 * job.readings.len() + 16 * index;
        return Err(BadRow { index, byte }.into());
    }
    Ok(())
}

// The numbers of a job.
fn numbers_of(job: &Job) -> Numbers
    ensures { result ≡ record { n = length (contents job.now).readings; rows = length (contents job.now).rows; guessed = job.now.guessed; limit = job.now.limit } }
{
    Numbers {
        n: job.readings.len(),
        rows: job.rows.len(),
        guessed: job.guessed,
        limit: job.limit,
    }
}

// Puts bytes at a place of a buffer that is lent: no allocation, and what stands around them stays.
fn put(out: &mut [u8], at: usize, piece: &[u8])
    requires { at + length piece.now ≤ length out.old }
    ensures { out.new ≡ pasted at piece.now out.old }
{
    out[at..at + piece.len()].copy_from_slice(piece);
}

// Puts entries one right after another, the first at a place. By index: no clause says what a slice ends as after
// `chunks_exact_mut`, and a loop over `split_first_chunk_mut`, which was tried, ends with nothing proved of `out`.
fn put_all<T: Entry<N>, const N: usize>(out: &mut [u8], at: usize, entries: &[T])
    requires space { at + N * length entries.now ≤ length out.old }
    requires held { All T.is_held entries.now }
    ensures bytes { out.new ≡ pasted at (flat_map T.bytes entries.now) out.old }
    ensures back { All T.is_read_back entries.now }
{
    for (index, entry) in entries.iter().enumerate() {
        put(out, at + N * index, &entry.to_bytes());
    }
}

// A job that a file can hold.
#[derive(Clone, Copy)]
struct Writable<'a> {
    job: &'a Job,
    ghost held: { job_fault (contents job.now) ≡ None },
}

impl<'a> Writable<'a> {
    // The job, if a file can hold it, or else its first fault.
    fn new(job: &'a Job) -> Result<Writable<'a>, FileFault>
        ensures fault { result_err result ≡ job_fault (contents job.now) }
        ensures job { IfOk result (λ w. w.job.now ≡ job.now) }
    {
        let len = Length::try_from(job.readings.len()).map_err(|_| FileFault::Numbers)?;
        if !numbers_of(job).are_good() {
            return Err(FileFault::Numbers);
        }
        check_sections(len, job)?;
        Ok(Writable { job })
    }

    // Its trailer. The casts are of numbers that `held` bounds: `try_from` would answer errors that cannot be.
    fn trailer(&self) -> Trailer
        ensures { result ≡ trailer_for (contents self.now.job.now) }
    {
        let n = self.job.readings.len();
        Trailer {
            n: n as u16,
            rows: self.job.rows.len() as u8,
            guessed: self.job.guessed as u8,
            readings_at: 0,
            rows_at: 9 * n as u32,
            limit: self.job.limit as u16,
            kind: self.job.kind,
        }
    }

    // How many bytes its sections have.
    fn sections_len(&self) -> usize
        ensures value { result + 16 ≡ length (job_bytes (contents self.now.job.now)) }
        ensures small { result ≤ 1664 }
    {
        9 * self.job.readings.len() + 16 * self.job.rows.len()
    }

    // Puts its file at the start.
    fn put(&self, out: &mut [u8])
        requires { length (job_bytes (contents self.now.job.now)) ≤ length out.old }
        ensures bytes { out.new ≡ job_bytes (contents self.now.job.now) ++ drop (length (job_bytes (contents self.now.job.now))) out.old }
        ensures held { AllHeld (contents self.now.job.now).readings }
    {
        put_all(out, 0, &self.job.readings);
        put_all(out, 9 * self.job.readings.len(), &self.job.rows);
        put(out, self.sections_len(), &<[u8; 16]>::from(self.trailer()));
    }
}

// Writes the file of a job, if a file can hold the job and there is room, and says how many bytes it has. The buffer is
// lent, so that a write allocates nothing.
pub fn write(job: &Job, out: &mut [u8]) -> Result<usize, FileFault>
    ensures value { result ≡ with_meaning length (written_of (contents job.now) (length out.old)) }
    ensures bytes { out.new ≡ overwritten (written_of (contents job.now) (length out.old)) out.old }
    ensures back { IfOk result (λ size. job_of (take size out.new) ≡ Ok (contents job.now)) }
{
    let writable = Writable::new(job)?;
    let size = writable.sections_len() + 16;
    if out.len() < size {
        return Err(FileFault::Room);
    }
    writable.put(out);
    Ok(size)
}
