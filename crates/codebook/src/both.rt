// Two tests at once.
ghost use Rattle.std.specs.Prelude.{◌&&◌, if◌then◌else◌, nat_eq, length};
ghost use Rattle.codebook.specs.Sizes.{both_pass, shared_length};

use crate::testing::Test;
use frames::words::Word;

// Accepts what both tests accept.
#[derive(Clone, Copy, Drop)]
pub struct Both<A, B> {
    pub left: A,
    pub right: B,
}

impl<A: Test, B: Test> Test for Both<A, B> {
    // 0 where the lengths differ, as the trait says of a test that accepts nothing
    ghost size = { λ t. (if nat_eq (A.Test.size t.left) (B.Test.size t.right) then A.Test.size t.left else 0) };

    ghost accepted = { λ t w. A.Test.accepted t.left w && B.Test.accepted t.right w };

    ghost sized = { λ t w e.
        let passed = both_pass (A.Test.accepted t.left w) (B.Test.accepted t.right w) e in
        shared_length (length w) (A.Test.size t.left) (B.Test.size t.right) (A.Test.sized t.left w passed.0) (B.Test.sized t.right w passed.1) };

    fn len(&self) -> usize {
        let len = self.left.len();
        if len == self.right.len() { len } else { 0 }
    }

    fn accepts(&self, word: &Word) -> bool {
        self.left.accepts(word) && self.right.accepts(word)
    }
}
