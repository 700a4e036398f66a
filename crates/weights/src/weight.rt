// What every kind of weight offers, and the laws that it keeps.
ghost use Rattle.weights.specs.Grade.{Promised, Addable};
ghost use Rattle.weights.specs.Kept.{Kept};
ghost use Rattle.weights.specs.Laws.{Laws};
ghost use Rattle.weights.specs.Model.{Model};
ghost use Rattle.std.specs.Prelude.{◌≡◌};

// A kind of weight: what a flip and a surcharge cost, and how costs are added and compared.
pub trait Weight: Copy {
    // What a weight means.
    ghost Value: { Type 0 };

    // What is done to the values.
    ghost model: { Model Value };

    // The value of a weight.
    ghost value: { Self → Value };

    // The weight of nothing.
    fn zero() -> Self
        ensures { value result ≡ model.zero };

    // The price of a flip, asked with `w`.
    fn flip(w: u16) -> Self
        ensures { value result ≡ model.flip w };

    // The price of a surcharge, asked with `p`.
    fn surcharge(p: u16) -> Self
        ensures { value result ≡ model.surcharge p };

    // The sum. Where it is not promised, any weight will do.
    fn plus(self, other: Self) -> Self
        ensures { Addable model (value self) (value other) → value result ≡ model.plus (value self) (value other) };

    // Whether `self` is no heavier than `other`.
    fn at_most(self, other: Self) -> bool
        ensures { Promised model (value self) → Promised model (value other) → result ≡ model.at_most (value self) (value other) };

    // What each kind has to show.
    ghost laws: { Laws model };
}

// Every kind keeps the laws, and adds up lists of prices.
pub fn laws_hold<W: Weight>()
    ensures { Kept W.model }
{}
