// Entries of a section, as a file holds them.
ghost use Rattle.std.specs.Prelude.{◌≡◌, ℕ, true, List, length, Ok, ⊤};
ghost use Rattle.frames.specs.Cells.{is_good};
ghost use Rattle.jobfile.specs.Records.{reading_of, record_of};
ghost use Rattle.jobfile.specs.RowPlaces.{packed, places_of};

use crate::records::write_record;
use crate::rows::row_bytes;
use frames::halves::Halves;
use frames::readings::Reading;

// What a section holds one right after another, each in N bytes.
pub(crate) trait Entry<const N: usize>: Copy {
    // Which entries a file can hold, their bytes, and what is read of these.
    ghost is_held: { Self → Type 0 };

    ghost bytes: { Self → List ℕ };

    ghost is_read_back: { Self → Type 0 };

    fn to_bytes(self) -> [u8; N]
        requires { is_held self }
        ensures value { result ≡ bytes self }
        ensures sized { length (bytes self) ≡ N }
        ensures back { is_read_back self };
}

impl Entry<9> for Reading {
    ghost is_held = { λ reading. is_good reading ≡ true };

    ghost bytes = { record_of };

    ghost is_read_back = { λ reading. reading_of (record_of reading) ≡ Ok reading };

    fn to_bytes(self) -> [u8; 9] {
        // `write_record` refuses what `is_held` rules out
        let Ok(record) = write_record(self) else {
            unreachable()
        };
        record
    }
}

impl Entry<16> for Halves {
    ghost is_held = { λ _. ⊤ };

    ghost bytes = { λ row. packed 16 (places_of row) };

    ghost is_read_back = { λ _. ⊤ };

    fn to_bytes(self) -> [u8; 16] {
        row_bytes(self)
    }
}
