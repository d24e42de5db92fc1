// Where the value of a file ends that has nothing but blanks behind it.
ghost use Rattle.std.specs.Prelude.{List, [], ◌≡◌, ℕ, ◌-◌, length, drop};
ghost use Rattle.limits.specs.Ceilings.{depth};
ghost use Rattle.lexeme.specs.Read.Read.{done};
ghost use Rattle.lexeme.specs.Character.{paired};
ghost use Rattle.lexeme.specs.Tokens.{blanks};
ghost use Rattle.json_text.specs.Tree.{Json};
ghost use Rattle.json_text.specs.Text.{value};
ghost use Rattle.walk.specs.inner.Tail.{Tail};

use crate::skip::skip_value;
use lexeme::ascii::is_blank;
use lexeme::front::first;

// Just past the last byte that is no blank.
fn solid_end(s: &[u8]) -> usize
    ensures { Tail s.now result }
{
    for i in (0..s.len()).rev() {
        if !is_blank(s[i]) {
            return i + 1;
        }
    }
    0
}

// Just past the value at `at`. The bracket that closes an object is the last byte that is no blank, so of an object nothing is passed over.
pub fn last_end(s: &[u8], at: usize) -> usize
    ensures { (x : Json) (t : List ℕ) → value paired depth (drop at s.now) ≡ done x t → blanks t ≡ [] → result ≡ length s.now - length t }
{
    if first(s, at) == b'{' {
        return solid_end(s);
    }
    skip_value(s, at)
}
