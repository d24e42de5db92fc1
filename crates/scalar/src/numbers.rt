// Numbers, by their spelling.
ghost use Rattle.std.specs.Prelude.{[], ◌∷◌, ◌≡◌};
ghost use Rattle.notation.specs.Choice.{◌⇒◌else◌};
ghost use Rattle.word.specs.Kinds.{wrong_type, out_of_range};
ghost use Rattle.decimal.specs.Decimals.{number_of, has_point};
ghost use Rattle.decimal.specs.Exact.{natural};
ghost use Rattle.decimal.specs.inner.Formed.{Formed};
ghost use Rattle.schema.specs.Shape.{Sort};
ghost use Rattle.schema.specs.inner.Line.{sort_letter};
ghost use Rattle.scalar.specs.Scalars.{unless, formed_kinds, any_money, number_kinds};
ghost use Rattle.scalar.specs.inner.Bounds.{in_bounds};
ghost use Rattle.word.specs.inner.Listed.{listed};

use decimal::Decimal;
use decimal::spelling::{has_point, read_decimal};
use schema::Line;
use word::kind::Kind;

// What the exact value of a number is held to: at least 0; from 0 to 1; so many degrees either way; an amount of money; one that is at least 0.
#[derive(Clone, Copy)]
pub enum Bounds {
    Natural,
    Portion,
    Degrees(u64),
    Money,
    Price,
}

impl Bounds {
    pub const LATITUDE: u64 = 90;

    pub const LONGITUDE: u64 = 180;
}

// Whether a number is an amount of money.
fn is_money(d: Decimal) -> bool
    requires { Formed d }
    ensures { result ≡ any_money d }
{
    d.money().is_some()
}

// Whether a number keeps within its bounds.
pub fn keeps(bounds: Bounds, d: Decimal) -> bool
    requires { Formed d }
    ensures { result ≡ in_bounds bounds d }
{
    match bounds {
        Bounds::Natural => d.natural(),
        Bounds::Portion => d.portion(),
        Bounds::Degrees(k) => d.within(k),
        Bounds::Money => is_money(d),
        Bounds::Price => d.natural() && is_money(d),
    }
}

// What a test of the range says.
pub fn range_kind(kept: bool) -> u8
    ensures { unless kept out_of_range ≡ listed result }
{
    if kept { 0 } else { Kind::OUT_OF_RANGE }
}

// A listed number's form, and then its range.
fn formed_kind(s: &[u8], bounds: Bounds) -> u8
    ensures { formed_kinds (in_bounds bounds) (number_of s.now) ≡ listed result }
{
    match read_decimal(s) {
        Some(d) => range_kind(keeps(bounds, d)),
        None => Kind::NUMBER_FORM,
    }
}

// An integer: it has no point, whatever else is wrong with it.
// Shut out: 1.0 taken for 1; 1.5e1 judged by its form, and not as no integer.
fn integer_kind(s: &[u8]) -> u8
    ensures { has_point s.now ⇒ wrong_type ∷ [] else formed_kinds natural (number_of s.now) ≡ listed result }
{
    if has_point(s) {
        Kind::WRONG_TYPE
    } else {
        formed_kind(s, Bounds::Natural)
    }
}

// A number's spelling against the sort of a letter.
pub fn number_kind(s: &[u8], letter: u8) -> u8
    ensures { (σ : Sort) → sort_letter σ ≡ letter → number_kinds σ s.now ≡ listed result }
{
    match letter {
        Line::TIMESTAMP | Line::INTEGER => integer_kind(s),
        Line::AMOUNT => formed_kind(s, Bounds::Natural),
        Line::PORTION => formed_kind(s, Bounds::Portion),
        Line::LATITUDE => formed_kind(s, Bounds::Degrees(Bounds::LATITUDE)),
        Line::LONGITUDE => formed_kind(s, Bounds::Degrees(Bounds::LONGITUDE)),
        Line::ORDINATE => 0,
        Line::MONEY => formed_kind(s, Bounds::Money),
        Line::PRICE => formed_kind(s, Bounds::Price),
        _ => Kind::WRONG_TYPE,
    }
}
