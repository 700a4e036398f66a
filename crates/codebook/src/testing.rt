// What every test of a word offers.
ghost use Rattle.std.specs.Prelude.{◌≡◌, ℕ, Bool, true, List, length};
ghost use Rattle.frames.specs.Words.{places};

use frames::words::Word;

// A test of a word: it accepts words of one length, and always the same ones.
pub trait Test {
    // The length of the words that it accepts; 0 where it accepts none.
    ghost size: { Self → ℕ };

    // Which words it accepts: this is the whole meaning of a test.
    ghost accepted: { Self → List Bool → Bool };

    // The length that it tells.
    fn len(&self) -> usize
        ensures { result ≡ size self.now };

    // Whether it accepts a word.
    fn accepts(&self, word: &Word) -> bool
        ensures { result ≡ accepted self.now (places word.now.bits) };

    // It accepts no word of another length.
    ghost sized: { (t : Self) (w : List Bool) → accepted t w ≡ true → length w ≡ size t };
}
