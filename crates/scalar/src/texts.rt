// Strings, by what stands between their quotation marks as spelled.
ghost use Rattle.std.specs.Prelude.{◌≡◌};
ghost use Rattle.text.specs.Text.{text_of, same};
ghost use Rattle.decimal.specs.Decimals.{price_of};
ghost use Rattle.schema.specs.Shape.{Sort};
ghost use Rattle.schema.specs.inner.Line.{sort_letter, sort_words, words_at, word_at, line_words, range_at};
ghost use Rattle.schema.specs.Tables.{sheets};
ghost use Rattle.scalar.specs.Scalars.{pricing, any_word, text_kinds};
ghost use Rattle.word.specs.inner.Listed.{listed};

use crate::currency::is_currency;
use crate::numbers::{Bounds, keeps, range_kind};
use calendar::written::is_date;
use decimal::PriceError;
use decimal::quoted::read_price;
use limits::Limits;
use schema::Line;
use schema::words::{word_is, word_is_exactly, words_at};
use text::measure::longer_than;
use word::kind::Kind;

// A price in quotation marks.
fn price_kind(spelled: &[u8]) -> u8
    ensures { pricing (price_of (text_of spelled.now)) ≡ listed result }
{
    match read_price(spelled) {
        Ok(d) => range_kind(keeps(Bounds::Price, d)),
        Err(PriceError::Unformed) => Kind::NUMBER_FORM,
        Err(PriceError::NoNumber) => Kind::OUT_OF_RANGE,
    }
}

// Whether the text is the first word of a line, letter for letter.
fn is_the_word(spelled: &[u8], line: usize) -> bool
    ensures { result ≡ same (text_of spelled.now) (word_at sheets (range_at (line_words sheets) line).first) }
{
    let words = words_at(line);
    word_is_exactly(words.first, spelled)
}

// Whether the text is one of the words of a line, whatever the case of its letters.
fn is_a_word(spelled: &[u8], line: usize) -> bool
    ensures { result ≡ any_word (words_at sheets line) (text_of spelled.now) }
{
    let words = words_at(line);
    let end = words.first + words.count;
    for k in words.first..end {
        if word_is(k, spelled) {
            return true;
        }
    }
    false
}

// A string's text against the sort of a letter, whose words are those of a line.
// Shut out: an id measured as it is spelled; an enum's word held to its case, or a type name let through in another case.
pub fn text_kind(spelled: &[u8], letter: u8, line: usize) -> u8
    ensures { (σ : Sort) → sort_letter σ ≡ letter → words_at sheets line ≡ sort_words σ → text_kinds σ (text_of spelled.now) ≡ listed result }
{
    match letter {
        Line::PRICE => price_kind(spelled),
        Line::TEXT => 0,
        Line::ID => range_kind(!longer_than(spelled, Limits::ID_BYTES)),
        Line::CURRENCY => range_kind(is_currency(spelled)),
        Line::DATE => range_kind(is_date(spelled)),
        Line::EXACTLY => range_kind(is_the_word(spelled, line)),
        Line::WORD => range_kind(is_a_word(spelled, line)),
        _ => Kind::WRONG_TYPE,
    }
}
