// Words, patterns and rows: bits with a length, told apart by what they are for.
ghost use Rattle.std.specs.Prelude.{◌≡◌};
ghost use Rattle.std.specs.Option.{option_map};
ghost use Rattle.frames.specs.Places.{flipped_by};
ghost use Rattle.frames.specs.Words.{places};

use crate::bits::Bits;

// Three types over one: they tell words, patterns and rows apart, and what is said of bits alike stands on `Bits`.

// The bits of a frame, as they were decided or as they were sent.
#[derive(Clone, Copy, Debug, PartialEq, Eq)]
pub struct Word {
    pub bits: Bits,
}

// An error pattern: it marks the places to flip.
#[derive(Clone, Copy, Debug, PartialEq, Eq)]
pub struct Pattern {
    pub bits: Bits,
}

// A parity check: it marks the places that it adds up.
#[derive(Clone, Copy, Debug, PartialEq, Eq)]
pub struct Row {
    pub bits: Bits,
}

impl Word {
    // This word with the pattern's flips made; none where the lengths differ.
    pub fn flipped(&self, pattern: &Pattern) -> Option<Word>
        ensures { option_map (λ w. places w.bits) result ≡ flipped_by (places self.now.bits) (places pattern.now.bits) }
    {
        let bits = self.bits.xor(&pattern.bits)?;
        Some(Word { bits })
    }

    // The pattern that leads from this word to the other; none where the lengths differ. The bits are those of
    // `flipped`, the type is not: one function for both would answer plain bits.
    pub fn between(&self, other: &Word) -> Option<Pattern>
        ensures { option_map (λ p. places p.bits) result ≡ flipped_by (places self.now.bits) (places other.now.bits) }
    {
        let bits = self.bits.xor(&other.bits)?;
        Some(Pattern { bits })
    }
}
