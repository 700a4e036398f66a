// Reading a trailer, and what it may say.
ghost use Rattle.std.specs.Prelude.{◌≡◌, ok_or};
ghost use Rattle.jobfile.specs.Trailers.{good_numbers, kind_of, kind_byte, is_good_trailer, trailer_of, is_laid_out, trailer_in, trailer_bytes};
ghost use Rattle.jobfile.specs.declared.faults.FileFault.TheVariants.{Numbers};

use crate::faults::FileFault;
use crate::jobs::WeightKind;
use crate::trailers::{Numbers, Trailer};

// The last byte of every file.
const MARK: u8 = 0x5A;

// The most bytes that a file may have.
const MOST: usize = 4096;

impl TryFrom<u8> for WeightKind {
    type Error = FileFault;

    ghost try_from_gives = { λ byte r. r ≡ ok_or (kind_of byte) Numbers };

    fn try_from(byte: u8) -> Result<WeightKind, FileFault> {
        match byte {
            0 => Ok(WeightKind::Level),
            1 => Ok(WeightKind::FlipsFirst),
            _ => Err(FileFault::Numbers),
        }
    }
}

impl From<WeightKind> for u8 {
    ghost from_gives = { λ kind r. r ≡ kind_byte kind };

    fn from(kind: WeightKind) -> u8 {
        kind as u8
    }
}

impl Numbers {
    // Whether a job may have these numbers.
    pub(crate) fn are_good(&self) -> bool
        ensures { result ≡ good_numbers self.now.n self.now.rows self.now.guessed self.now.limit }
    {
        (1..=128).contains(&self.n)
            && (1..=1024).contains(&self.limit)
            && self.rows <= 32
            && self.guessed <= 6
            && self.guessed <= self.rows
            && self.n * self.limit <= 1024
            && (self.n + 1) << self.guessed <= 1024
    }
}

impl TryFrom<[u8; 16]> for Trailer {
    type Error = FileFault;

    ghost try_from_gives = { λ bytes r. r ≡ ok_or (trailer_of bytes) Numbers };

    fn try_from(bytes: [u8; 16]) -> Result<Trailer, FileFault> {
        let [a, b, rows, guessed, c, d, e, f, g, h, i, j, k, l, kind, _] = bytes;
        let trailer = Trailer {
            n: u16::from_le_bytes([a, b]),
            rows,
            guessed,
            readings_at: u32::from_le_bytes([c, d, e, f]),
            rows_at: u32::from_le_bytes([g, h, i, j]),
            limit: u16::from_le_bytes([k, l]),
            kind: WeightKind::try_from(kind)?,
        };
        if trailer.is_good() {
            Ok(trailer)
        } else {
            Err(FileFault::Numbers)
        }
    }
}

impl From<Trailer> for [u8; 16] {
    ghost from_gives = { λ trailer r. r ≡ trailer_bytes trailer };

    fn from(trailer: Trailer) -> [u8; 16] {
        let [a, b] = trailer.n.to_le_bytes();
        let [c, d, e, f] = trailer.readings_at.to_le_bytes();
        let [g, h, i, j] = trailer.rows_at.to_le_bytes();
        let [k, l] = trailer.limit.to_le_bytes();
        let Trailer { rows, guessed, .. } = trailer;
        let kind = u8::from(trailer.kind);
        [
            a, b, rows, guessed, c, d, e, f, g, h, i, j, k, l, kind, MARK,
        ]
    }
}

impl Trailer {
    // Whether its numbers are a job's.
    fn is_good(&self) -> bool
        ensures { result ≡ is_good_trailer self.now }
    {
        let numbers = Numbers {
            n: usize::from(self.n),
            rows: usize::from(self.rows),
            guessed: usize::from(self.guessed),
            limit: usize::from(self.limit),
        };
        numbers.are_good()
    }

    // Whether no section has a byte at or past `end`, or in the other section. By `as`, since
    // `usize` has no `From<u32>`.
    fn is_laid_out(&self, end: usize) -> bool
        ensures { result ≡ is_laid_out self.now end }
    {
        let readings_at = self.readings_at as usize;
        let rows_at = self.rows_at as usize;
        let readings_end = readings_at + 9 * usize::from(self.n);
        let rows_end = rows_at + 16 * usize::from(self.rows);
        readings_end <= end
            && (self.rows == 0
                || rows_end <= end && (readings_end <= rows_at || rows_end <= readings_at))
    }
}

// The trailer of a file, or why the file has none that is good.
pub(crate) fn read_trailer(bytes: &[u8]) -> Result<Trailer, FileFault>
    ensures { result ≡ trailer_in bytes.now }
{
    // by `else`: `ok_or` was tried, and its clauses no longer tell how the two parts make up the bytes
    let Some((sections, last)) = bytes.split_last_chunk::<16>() else {
        return Err(FileFault::Form);
    };
    if bytes.len() > MOST || last[15] != MARK {
        return Err(FileFault::Form);
    }
    let trailer = Trailer::try_from(*last)?;
    if trailer.is_laid_out(sections.len()) {
        Ok(trailer)
    } else {
        Err(FileFault::Layout)
    }
}
