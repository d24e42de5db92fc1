// A single value against what its row says: the kind that it breaks, 0 for none. A sort is given by its letter, and where it has words by
// the line that has them.
#![tactic(auto)]

ghost use Rattle.std.specs.Prelude.{◌≡◌, ◌≤◌, length};
ghost use Rattle.json_text.specs.Tree.{Json};
ghost use Rattle.text.specs.Text.{text_of};
ghost use Rattle.walk.specs.Part.{Whole, inside};
ghost use Rattle.schema.specs.Shape.{Sort};
ghost use Rattle.schema.specs.inner.Line.{sort_letter, sort_words, words_at};
ghost use Rattle.schema.specs.Tables.{sheets};
ghost use Rattle.scalar.specs.Scalars.{kinds_of, boolean_kinds, text_kinds};
ghost use Rattle.word.specs.inner.Listed.{listed};

use schema::Line;
use walk::{ValueKind, value_kind};
use word::kind::Kind;

mod currency;
pub mod numbers;
pub mod texts;

use crate::numbers::number_kind;
use crate::texts::text_kind;

// True or false.
fn boolean_kind(letter: u8) -> u8
    ensures { (σ : Sort) → sort_letter σ ≡ letter → boolean_kinds σ ≡ listed result }
{
    if letter == Line::BOOLEAN {
        0
    } else {
        Kind::WRONG_TYPE
    }
}

// A string, with its quotation marks. A whole one has both.
fn string_kind(p: &[u8], letter: u8, line: usize) -> u8
    ensures { (σ : Sort) → sort_letter σ ≡ letter → words_at sheets line ≡ sort_words σ → 2 ≤ length p.now → text_kinds σ (text_of (inside p.now)) ≡ listed result }
{
    if p.len() < 2 {
        return 0;
    }
    text_kind(&p[1..p.len() - 1], letter, line)
}

// The value p against the sort of a letter, whose words are those of a line.
pub fn judge_scalar(p: &[u8], letter: u8, line: usize) -> u8
    ensures { (σ : Sort) (x : Json) → sort_letter σ ≡ letter → words_at sheets line ≡ sort_words σ → Whole p.now x → kinds_of σ x ≡ listed result }
{
    match value_kind(p) {
        ValueKind::Boolean => boolean_kind(letter),
        ValueKind::Number => number_kind(p, letter),
        ValueKind::String => string_kind(p, letter, line),
        ValueKind::Null | ValueKind::Array | ValueKind::Object => Kind::WRONG_TYPE,
    }
}
