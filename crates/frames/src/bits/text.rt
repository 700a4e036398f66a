// Bits as text.
ghost use Rattle.std.specs.Prelude.{Some};
ghost use Rattle.frames.specs.Texts.{bits_text};
ghost use Rattle.frames.specs.Words.{places};

use crate::bits::Bits;
use std::fmt;

// One character for each place, place 0 first: 1 where it is marked, else 0.
impl fmt::Display for Bits {
    ghost output = { λ b. Some (bits_text (places b)) };

    fn fmt<W: fmt::Write>(&self, f: &mut fmt::Formatter<W>) -> fmt::Result {
        for bit in self {
            f.write_str(if bit { "1" } else { "0" })?;
        }
        Ok(())
    }
}
