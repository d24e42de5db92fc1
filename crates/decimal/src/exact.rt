// Tests of a decimal on its exact value, and what it is as money and as a coordinate.
ghost use Rattle.std.specs.Prelude.{true, ◌≡◌, ◌*◌, ◌≤◌};
ghost use Rattle.signed.specs.Signed.{signed};
ghost use Rattle.signed.specs.inner.Difference.{difference};
ghost use Rattle.decimal.specs.Exact.{natural, portion, in_range, amount_of, money_of, millionths};
ghost use Rattle.decimal.specs.inner.Formed.{Formed};

use crate::{Amount, Decimal};

impl Decimal {
    // The greatest amount of money either way, and the parts of 10^-18 in a ten-thousandth, in a millionth and in half a millionth.
    pub const MOST_MONEY: u64 = 1_000_000;

    pub const TEN_THOUSANDTH: u64 = 100_000_000_000_000;

    pub const MILLIONTH: u64 = 1_000_000_000_000;

    pub const HALFWAY: u64 = 500_000_000_000;

    // At least 0.
    pub fn natural(self) -> bool
        requires { Formed self }
        ensures { result ≡ natural self }
    {
        !self.negative
    }

    // From -k to k.
    // Shut out: a test on the rounded value, which lets 90.00000001 pass for 90.
    #[tactic(auto, using(crate::proofs::Tests::within_less, crate::proofs::Tests::within_more, crate::proofs::Tests::within_even))]
    pub fn within(self, k: u64) -> bool
        requires { Formed self }
        ensures { result ≡ in_range k self }
    {
        self.whole < k || self.whole == k && self.part == 0
    }

    // From 0 to 1.
    #[tactic(auto, using(crate::proofs::Tests::portion_rules))]
    pub fn portion(self) -> bool
        requires { Formed self }
        ensures { result ≡ portion self }
    {
        !self.negative && self.within(1)
    }

    // The amount of a number that is money.
    pub fn amount(self) -> Amount
        requires { Formed self }
        ensures { result ≡ amount_of self }
    {
        Amount {
            negative: self.negative,
            size: self.whole * 10_000 + self.part / Decimal::TEN_THOUSANDTH,
        }
    }

    // As money.
    #[tactic(auto, using(crate::proofs::Tests::money_rules))]
    pub fn money(self) -> Option<Amount>
        requires { Formed self }
        ensures { result ≡ money_of self }
    {
        if !self.within(Decimal::MOST_MONEY) || self.part % Decimal::TEN_THOUSANDTH != 0 {
            return None;
        }
        Some(self.amount())
    }

    // How many millionths, to the nearest and without the sign.
    // Shut out: the rest dropped, which moves every coordinate towards zero; a half dropped.
    fn rounded(self) -> u64
        requires { Formed self }
        ensures { signed self.negative result ≡ millionths self }
    {
        self.whole * 1_000_000 + (self.part + Decimal::HALFWAY) / Decimal::MILLIONTH
    }

    // A coordinate in millionths, k degrees up: so it is never below 0.
    pub fn coordinate(self, k: u64) -> u64
        requires { Formed self × (in_range k self ≡ true) × (k ≤ 180) }
        ensures { difference result (k * 1_000_000) ≡ millionths self }
    {
        let up = k * 1_000_000;
        let size = self.rounded();
        if self.negative { up - size } else { up + size }
    }
}
