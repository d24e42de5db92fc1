// What follows an element of an array or object.
ghost use Rattle.std.specs.Prelude.{◌≡◌};
ghost use Rattle.lexeme.specs.inner.Class.{Classifies};
ghost use Rattle.json_text.specs.inner.Turns.{turn};

use lexeme::SyntaxError;
use lexeme::blank::skip_blanks_by;
use word::kind::Kind;

// The whole array or object ends there, or the next element begins there.
#[derive(Clone, Copy, Debug, PartialEq, Eq)]
pub enum Turn {
    Closed(usize),
    Next(usize),
}

// After an element whose reading ended so: a fault in it ends the whole; else the closing bracket, or a comma, and the want of both is a fault.
pub fn after_element(
    table: &[u8; 256],
    s: &[u8],
    element: Result<usize, SyntaxError>,
    close: u8,
) -> Result<Turn, SyntaxError>
    requires { Classifies table.now }
    ensures { result ≡ turn s.now close element }
{
    let end = element?;
    let i = skip_blanks_by(table, s, end);
    if s.len() <= i {
        return Err(SyntaxError {
            kind: Kind::NOT_JSON,
            offset: i,
        });
    }
    let b = s[i];
    if b == close {
        return Ok(Turn::Closed(i + 1));
    }
    if b == b',' {
        return Ok(Turn::Next(skip_blanks_by(table, s, i + 1)));
    }
    Err(SyntaxError {
        kind: Kind::NOT_JSON,
        offset: i,
    })
}
