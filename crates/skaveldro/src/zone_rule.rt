// The answer to "zone rule" in numbers.
ghost use Rattle.std.specs.Prelude.{◌≡◌};
ghost use Rattle.zone.specs.Answer.{answer};
ghost use Rattle.skaveldro.specs.Answers.{rule_values};

use crate::encode::bit;
use word::refusal::Refusal;
use zone::Rule;

// The values of an answer behind the parts of a word: what the rules say.
pub fn rest(r: Result<Rule, Refusal>) -> [u64; 6]
    ensures { result ≡ rule_values (answer r).rule }
{
    match r {
        Ok(rule) => [
            bit(rule.ride),
            bit(rule.through),
            bit(rule.speed.is_some()),
            rule.speed.unwrap_or(0),
            bit(rule.parking.is_some()),
            bit(rule.parking.unwrap_or(false)),
        ],
        Err(_) => [0; 6],
    }
}
