// Rows and patterns as they lie in tables.
ghost use Rattle.std.specs.Prelude.{◌≡◌, ◌-◌, ◌%◌, ◌^◌, ◌==◌};
ghost use Rattle.frames.specs.Halves.{unmarked};

use crate::length::Length;

// 128 places without a length: place 0 is the highest bit of `first`, place 64 the highest of `second`. Two fields and
// not a `u128` or an array: each is one machine word, reached with no shift and no index.
#[derive(Clone, Copy, Debug, PartialEq, Eq, PartialOrd, Ord)]
pub struct Halves {
    pub first: u64,
    pub second: u64,
}

// Whether a half has no bit below its `kept` highest.
fn is_clear(half: u64, kept: u8) -> bool
    ensures { result ≡ (half % 2 ^ (64 - kept) == 0) }
{
    kept >= 64 || half & (u64::MAX >> kept) == 0
}

impl Halves {
    // Whether no place from `len` on is marked.
    pub(crate) fn ends_before(self, len: Length) -> bool
        ensures { result ≡ unmarked len.places self.first self.second }
    {
        is_clear(self.first, len.places) && is_clear(self.second, len.places.saturating_sub(64))
    }
}
