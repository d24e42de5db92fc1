// JSON texts: stage A.
#![tactic(auto)]

ghost use Rattle.std.specs.Prelude.{◌≡◌};
ghost use Rattle.json_text.specs.Text.{syntax_of};

pub mod element;
pub mod reader;
pub mod strings;

use lexeme::SyntaxError;
use limits::Limits;
use reader::read_text;
use word::kind::Kind;

// Stage A of one file, for any bytes at all. (No bytes are no JSON text: whether a file is there is asked before.)
// Shut out: a seventeenth level let through; a fault named a byte early or late, or before the blanks that stand ahead of it.
pub fn check_syntax(file: &[u8]) -> Result<(), SyntaxError>
    ensures { result ≡ syntax_of file.now }
{
    if Limits::FILE_BYTES < file.len() {
        return Err(SyntaxError {
            kind: Kind::TOO_LONG,
            offset: 0,
        });
    }
    read_text(file, Limits::DEPTH)?;
    Ok(())
}
