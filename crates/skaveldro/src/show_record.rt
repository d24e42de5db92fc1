// The answer to "show record" in numbers.
ghost use Rattle.std.specs.Prelude.{[], ◌∷◌, ◌≡◌};
ghost use Rattle.clean.specs.Show.{answer};

use document::Span;
use word::refusal::Refusal;

// The values of an answer behind the parts of a word: where the record begins and where it ends.
pub fn rest(shown: Result<Span, Refusal>) -> [u64; 2]
    ensures { result ≡ (answer shown).from ∷ (answer shown).upto ∷ [] }
{
    match shown {
        Ok(span) => [span.from as u64, span.upto as u64],
        Err(_) => [0; 2],
    }
}
