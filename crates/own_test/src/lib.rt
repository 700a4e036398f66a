// A test of a word written outside the crate `codebook`: the struct, its size and what it accepts, the law, and two
// methods.
#![tactic(auto)]

ghost use Rattle.std.specs.Prelude.{◌%◌, ◌&&◌, length, ◌==◌};
ghost use Rattle.frames.specs.Places.{marks};
ghost use Rattle.codebook.specs.Sizes.{tested_length};

use codebook::testing::Test;
use frames::words::Word;

// Accepts the words of `len` places with an even number of marks.
#[derive(Clone, Copy)]
pub struct EvenMarks {
    pub len: usize,
}

impl Test for EvenMarks {
    ghost size = { λ t. t.len };

    ghost accepted = { λ t w. (length w == t.len) && marks w % 2 == 0 };

    ghost sized = { λ t w e. tested_length (length w) t.len _ e };

    fn len(&self) -> usize {
        self.len
    }

    fn accepts(&self, word: &Word) -> bool {
        word.bits.len() == self.len && word.bits.marks() % 2 == 0
    }
}

#[cfg(test)]
mod tests {
    use crate::EvenMarks;
    use codebook::both::Both;
    use codebook::fields::FieldTest;
    use codebook::testing::Test;
    use frames::bits::Bits;
    use frames::halves::Halves;
    use frames::words::Word;
    use std::test::Fail;

    // As a user of the library would write it: the word of three places that the three lowest digits of a number spell.
    fn three(number: u64) -> Result<Word, Fail> {
        let halves = Halves {
            first: (number % 8) << 61,
            second: 0,
        };
        let bits = Bits::new(3, halves)?;
        Ok(Word { bits })
    }

    #[test]
    fn an_own_test_stands_beside_ours(rt: HostRuntime) -> Result<(), Fail> {
        let field = FieldTest::new(3, 0, 2, 1, 2)?;
        let both = Both {
            left: EvenMarks { len: 3 },
            right: field,
        };
        assert_eq!(rt; both.len(), 3);
        for number in 0..8 {
            let expected = number == 3 || number == 5;
            assert_eq!(rt; both.accepts(&three(number)?), expected);
        }
        Ok(())
    }
}
