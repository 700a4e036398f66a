// Making a field test, and testing a word.
ghost use Rattle.std.specs.Prelude.{◌≡◌, ◌^◌, ◌≤◌, length, Some, nat_lt};
ghost use Rattle.frames.specs.Faults.{answer};
ghost use Rattle.frames.specs.Words.{places};
ghost use Rattle.codebook.specs.Fields.{field_number, accepted_by_field, field_test_of};
ghost use Rattle.codebook.specs.Ranges.{range_of};
ghost use Rattle.codebook.specs.Sizes.{tested_length};

use crate::fields::FieldTest;
use crate::testing::Test;
use frames::faults::Fault;
use frames::length::Length;
use frames::words::Word;

// Whether `count` places can hold a number.
fn is_held(number: u32, count: usize) -> bool
    requires { count ≤ 16 }
    ensures { result ≡ nat_lt number (2 ^ count) }
{
    number >> count == 0
}

impl FieldTest {
    // The test that `count` places from `first` on hold a number from `low` to `high`. Five numbers, since a struct of
    // them would be a field test that nobody has checked.
    pub fn new(
        len: usize,
        first: usize,
        count: usize,
        low: u32,
        high: u32,
    ) -> Result<FieldTest, Fault>
        ensures { answer range_of result ≡ Some (field_test_of record { long = len; from = first; count = count; least = low; most = high }) }
    {
        let places = Length::try_from(len)?;
        if count == 0 || count > 16 || first > len || count > len - first {
            return Err(Fault::Field);
        }
        if low > high || !is_held(high, count) {
            return Err(Fault::Field);
        }
        Ok(FieldTest {
            len: places,
            first,
            count,
            low,
            high,
        })
    }

    // The number that the field of a word holds.
    fn number(&self, word: &Word) -> u32
        requires { length (places word.now.bits) ≡ self.now.len.places }
        ensures { result ≡ field_number self.now.first self.now.count (places word.now.bits) }
    {
        let mut number = 0;
        for bit in word.bits.iter_from(self.first).take(self.count) {
            number = 2 * number + u32::from(bit);
        }
        number
    }
}

impl Test for FieldTest {
    ghost size = { λ t. (range_of t).long };

    ghost accepted = { λ t w. accepted_by_field (range_of t) w };

    ghost sized = { λ t w e. tested_length (length w) (range_of t).long _ e };

    fn len(&self) -> usize {
        usize::from(self.len)
    }

    fn accepts(&self, word: &Word) -> bool {
        if word.bits.len() != usize::from(self.len) {
            return false;
        }
        let number = self.number(word);
        self.low <= number && number <= self.high
    }
}
