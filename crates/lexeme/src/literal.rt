// Words.
ghost use Rattle.std.specs.Prelude.{◌≡◌, drop};
ghost use Rattle.lexeme.specs.Read.{placed};
ghost use Rattle.lexeme.specs.Tokens.{literal};

use super::SyntaxError;
use super::front::place;
use word::kind::Kind;

// The word at `at`; a fault is at the first byte that differs.
pub fn read_literal(s: &[u8], at: usize, word: &[u8]) -> Result<usize, SyntaxError>
    ensures { result ≡ placed s.now (literal {A = Unit {0}} word.now tt (drop at s.now)) }
{
    let mut i = at;
    for c in word {
        if s.len() <= i || s[i] != *c {
            return Err(SyntaxError {
                kind: Kind::NOT_JSON,
                offset: place(s, i),
            });
        }
        i += 1;
    }
    Ok(place(s, i))
}
