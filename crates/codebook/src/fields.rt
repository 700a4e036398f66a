// The field test: neighbouring places hold a number from low to high.
ghost use Rattle.std.specs.Prelude.{◌+◌, ◌≤◌};

use frames::length::Length;

pub mod ops;

// In words of `len` places, the `count` places from `first` on, the first most significant.
#[derive(Clone, Copy)]
pub struct FieldTest {
    len: Length,
    first: usize,
    count: usize,
    low: u32,
    high: u32,
    ghost inside: { first + count ≤ len.places },
    ghost short: { count ≤ 16 },
}
