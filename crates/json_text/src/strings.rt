// Strings of a JSON text: a whole one, and where its plain bytes end.
ghost use Rattle.std.specs.Prelude.{◌≡◌, eqb, drop, None};
ghost use Rattle.notation.specs.Choice.{◌⇒◌else◌};
ghost use Rattle.lexeme.specs.Character.{paired, escape};
ghost use Rattle.lexeme.specs.inner.Class.{Classifies};
ghost use Rattle.lexeme.specs.Read.{placed};
ghost use Rattle.lexeme.specs.Strings.{string};
ghost use Rattle.character.specs.inner.Length.{taken};

use character::length::escape_length;
use character::next_by;
use lexeme::class::{Class, class_by};
use lexeme::{Next, SyntaxError};
use word::kind::Kind;

// Where the plain bytes from `at` on end, inside a string: what is left decides where it ends.
pub fn plain_end(table: &[u8; 256], s: &[u8], at: usize) -> usize
    requires { Classifies table.now }
    ensures { placed s.now (string paired 0 (drop result s.now)) ≡ placed s.now (string paired 0 (drop at s.now)) }
{
    for i in at..s.len() {
        if Class::QUOTE <= class_by(table, s[i]) {
            return i;
        }
    }
    s.len()
}

// How many bytes the escape at `at` takes, where the first has the class; none where it has a fault, or none stands there.
fn escape_by(s: &[u8], at: usize, class: u8) -> Option<usize>
    ensures { result ≡ (eqb class 16 ⇒ taken (escape paired (drop at s.now)) else None) }
{
    if class == Class::BACKSLASH {
        escape_length(s, at)
    } else {
        None
    }
}

// The string whose opening quote stands just before `at`. Plain bytes are passed one by one, with no character made of them, nor of the closing
// quote, nor of an escape. The table of classes is the caller's, who takes it once for many strings.
// Shut out: an escaped quote taken for the closing one; a fault named where its character begins, and not at the wrong byte.
pub fn read_string(table: &[u8; 256], s: &[u8], at: usize) -> Result<usize, SyntaxError>
    requires { Classifies table.now }
    ensures { result ≡ placed s.now (string paired 0 (drop at s.now)) }
{
    let mut i = at;
    while i < s.len() {
        let class = class_by(table, s[i]);
        if class < Class::QUOTE {
            i += 1;
            continue;
        }
        if class == Class::QUOTE {
            return Ok(i + 1);
        }
        if let Some(taken) = escape_by(s, i, class) {
            i += taken;
            continue;
        }
        match next_by(table, s, i, class) {
            Next::Quote => return Ok(i + 1),
            Next::Fault(kind, n) => return Err(SyntaxError {
                kind,
                offset: i + n,
            }),
            Next::Character(x) => i += 1 + x.more,
        }
    }
    Err(SyntaxError {
        kind: Kind::NOT_JSON,
        offset: s.len(),
    })
}
