// Blanks between lexemes.
ghost use Rattle.std.specs.Prelude.{◌≡◌, ◌-◌, length, drop};
ghost use Rattle.lexeme.specs.inner.Class.{Classifies};
ghost use Rattle.lexeme.specs.Tokens.{blanks};

use super::ascii::is_blank;
use super::class::{class_by, is_blank_class};

// Where the blanks from `at` on end.
pub fn skip_blanks(s: &[u8], at: usize) -> usize
    ensures { result ≡ length s.now - length (blanks (drop at s.now)) }
{
    for i in at..s.len() {
        if !is_blank(s[i]) {
            return i;
        }
    }
    s.len()
}

// Where the blanks from `at` on end, by the table of classes, for a scanner that lends it. A function for both would take the test, and a law on it.
pub fn skip_blanks_by(table: &[u8; 256], s: &[u8], at: usize) -> usize
    requires { Classifies table.now }
    ensures { result ≡ length s.now - length (blanks (drop at s.now)) }
{
    for i in at..s.len() {
        if !is_blank_class(class_by(table, s[i])) {
            return i;
        }
    }
    s.len()
}
