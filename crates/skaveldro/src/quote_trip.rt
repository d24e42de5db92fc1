// The answer to "quote" in numbers.
ghost use Rattle.std.specs.Prelude.{[], ◌∷◌, ◌≡◌};
ghost use Rattle.quote.specs.Quote.{answer};
ghost use Rattle.skaveldro.specs.Answers.{bit as bit_of, signed_bits};

use crate::encode::{bit, signed_bits};
use quote::Quote;
use word::refusal::Refusal;

// The values of an answer behind the parts of a word: the amount and the two marks.
pub fn rest(q: Result<Quote, Refusal>) -> [u64; 3]
    ensures { result ≡ signed_bits (answer q).amount ∷ bit_of (answer q).past_minutes ∷ bit_of (answer q).past_kilometres ∷ [] }
{
    match q {
        Ok(q) => [
            signed_bits(q.amount),
            bit(q.past_minutes),
            bit(q.past_kilometres),
        ],
        Err(_) => [0; 3],
    }
}
