// Numbers by their bytes, of a plan that is clear: each is what stage B has found it to be, so that its value is read and nothing else can come of it.
ghost use Rattle.std.specs.Prelude.{◌≡◌};
ghost use Rattle.schema.specs.Shape.{integer, money, price};
ghost use Rattle.document.specs.Values.{integer_in};
ghost use Rattle.document.specs.inner.Values.{spelled_by};
ghost use Rattle.quote.specs.Plan.{money_in};
ghost use Rattle.quote.specs.inner.Values.{price_by};
ghost use Rattle.quote.specs.inner.Clear.{ClearValue};

use decimal::Amount;
use decimal::quoted::formed_price;
use decimal::spelling::formed_decimal;
use document::fields::{STRING, code_of, unquoted};

pub fn integer_in(q: &[u8]) -> u64
    requires { ClearValue integer q.now }
    ensures { result ≡ integer_in (spelled_by q.now) }
{
    let d = formed_decimal(q);
    d.whole
}

pub fn money_in(q: &[u8]) -> Amount
    requires { ClearValue money q.now }
    ensures { result ≡ money_in (spelled_by q.now) }
{
    formed_decimal(q).amount()
}

// A price, as a number or in quotation marks.
pub fn price_in(q: &[u8]) -> Amount
    requires { ClearValue price q.now }
    ensures { result ≡ price_by q.now }
{
    if code_of(q) == STRING {
        return formed_price(unquoted(q)).amount();
    }
    formed_decimal(q).amount()
}
