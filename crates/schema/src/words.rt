// The words of the table, a line a word: which of them a line's value is held to, and where each stands in their bytes.
ghost use Rattle.std.specs.Prelude.{◌≡◌};
ghost use Rattle.text.specs.Text.{text_of, same, same_word};
ghost use Rattle.schema.specs.Tables.{sheets};
ghost use Rattle.schema.specs.inner.Line.{line_words, words_of, word_at, range_at};

use crate::table::{LINE_COUNTS, LINE_FIRSTS, WORD_COUNTS, WORD_FIRSTS, WORDS};
use crate::{Line, Range};
use text::compare;

// Which words are a line's.
pub fn words_at(i: usize) -> Range
    ensures { result ≡ range_at (line_words sheets) i }
{
    Range::of_columns(&LINE_FIRSTS, &LINE_COUNTS, i)
}

// Where a word stands.
fn range_of(k: usize) -> Range
    ensures { result ≡ range_at (words_of sheets) k }
{
    Range::of_columns(&WORD_FIRSTS, &WORD_COUNTS, k)
}

// The bytes of a word.
fn word_at(k: usize) -> &'static [u8]
    ensures { result.now ≡ word_at sheets k }
{
    let word = range_of(k);
    &WORDS[word.first..word.first + word.count]
}

// The text that is spelled is a word, whatever the case of its letters.
pub fn word_is(k: usize, spelled: &[u8]) -> bool
    ensures { result ≡ same_word (text_of spelled.now) (word_at sheets k) }
{
    compare::word_is(spelled, word_at(k))
}

// The text that is spelled is a word, letter for letter.
pub fn word_is_exactly(k: usize, spelled: &[u8]) -> bool
    ensures { result ≡ same (text_of spelled.now) (word_at sheets k) }
{
    compare::text_is(spelled, word_at(k))
}
