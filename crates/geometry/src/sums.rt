// Numbers that may be negative, as two sums that only grow.
ghost use Rattle.std.specs.Prelude.{◌≡◌, pos};
ghost use Rattle.std.specs.Int.Signed.{lt_z};
ghost use Rattle.geometry.specs.Ring.{equal};
ghost use Rattle.geometry.specs.inner.Shifted.{Fits, value, no_balance, added};

use crate::{Balance, Position};

impl Balance {
    pub fn none() -> Balance
        ensures { result ≡ no_balance }
    {
        Balance { plus: 0, minus: 0 }
    }

    // With the edge from a to b.
    pub fn with(self, a: Position, b: Position) -> Balance
        requires { Fits (added self a b) }
        ensures { result ≡ added self a b }
    {
        Balance {
            plus: self.plus + a.lon * b.lat,
            minus: self.minus + b.lon * a.lat,
        }
    }

    pub fn is_zero(self) -> bool
        ensures { result ≡ equal (value self) (pos 0) }
    {
        self.plus == self.minus
    }

    pub fn above_zero(self) -> bool
        ensures { result ≡ lt_z (pos 0) (value self) }
    {
        self.minus < self.plus
    }

    pub fn below_zero(self) -> bool
        ensures { result ≡ lt_z (value self) (pos 0) }
    {
        self.plus < self.minus
    }
}
