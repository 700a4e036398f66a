// Rows as 16 bytes: place i is bit i mod 8, counted from the lowest, of byte i div 8.
ghost use Rattle.std.specs.Prelude.{◌≡◌};
ghost use Rattle.jobfile.specs.RowPlaces.{byte_places, packed, half_places, places_of, ends_before};

use frames::bits::Bits;
use frames::halves::Halves;
use frames::length::Length;

// The half whose places eight bytes hold.
fn half_of(bytes: &[u8; 8]) -> u64
    ensures { half_places result ≡ byte_places bytes.now }
{
    u64::from_le_bytes(*bytes).reverse_bits()
}

// The eight bytes that hold the places of a half.
fn half_bytes(half: u64) -> [u8; 8]
    ensures { result ≡ packed 8 (half_places half) }
{
    half.reverse_bits().to_le_bytes()
}

// The row whose places 16 bytes hold.
pub(crate) fn row_of(bytes: &[u8; 16]) -> Halves
    ensures { places_of result ≡ byte_places bytes.now }
{
    // a slice's method answers an option, though 16 bytes have both parts
    let (Some(first), Some(second)) = (bytes.first_chunk::<8>(), bytes.last_chunk::<8>()) else {
        unreachable()
    };
    Halves {
        first: half_of(first),
        second: half_of(second),
    }
}

// The 16 bytes that hold the places of a row.
pub(crate) fn row_bytes(row: Halves) -> [u8; 16]
    ensures { result ≡ packed 16 (places_of row) }
{
    let mut bytes = [0; 16];
    bytes[..8].copy_from_slice(&half_bytes(row.first));
    bytes[8..].copy_from_slice(&half_bytes(row.second));
    bytes
}

// Whether a row has no mark at or past the length: whether bits can be made of it.
pub(crate) fn ends_before(len: Length, row: Halves) -> bool
    ensures { result ≡ ends_before len.places (places_of row) }
{
    Bits::new(usize::from(len), row).is_ok()
}
