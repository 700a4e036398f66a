// Prices, and sums of them in any kind of weight.
ghost use Rattle.std.specs.Prelude.{◌≡◌, ◌<◌, ◌≤◌, length};
ghost use Rattle.weights.specs.Price.{InRange, asked, price_of, worth};

use crate::weight::Weight;

// A price, with the number that it is asked with.
#[derive(Clone, Copy, PartialEq, Eq, Debug)]
pub enum Price {
    Flip(u16),
    Surcharge(u16),
}

impl Price {
    // The price as a weight of the kind `W`. The number asked with is always in range.
    pub fn weight<W: Weight>(self) -> W
        ensures value { W.value result ≡ price_of W.model self }
        ensures range { asked self < 65536 }
    {
        match self {
            Price::Flip(w) => W::flip(w),
            Price::Surcharge(p) => W::surcharge(p),
        }
    }
}

// The sum of the prices, promised of at most 256 of them.
pub fn total<W: Weight>(prices: &[Price]) -> W
    ensures range { InRange prices.now }
    ensures value { length prices.now ≤ 256 → W.value result ≡ worth W.model prices.now }
{
    let mut sum = W::zero();
    for price in prices {
        sum = sum.plus(price.weight());
    }
    sum
}
