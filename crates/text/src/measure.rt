// How long a text is.
ghost use Rattle.std.specs.Prelude.{◌≡◌, ltb, length};
ghost use Rattle.lexeme.specs.Character.{bytes_of};
ghost use Rattle.text.specs.Text.{text_of};

use crate::ascii::is_plain;
use character::next_char;
use lexeme::{Char, Next};

// How many bytes a character has.
fn size(x: Char) -> usize
    ensures { result ≡ length (bytes_of x) }
{
    x.len.min(4)
}

// The text has more bytes than `most`. It is never longer than its spelling. A byte that stands for itself is counted as it is; any other begins a character.
// No more than one character past `most` is looked at.
pub fn longer_than(spelled: &[u8], most: usize) -> bool
    ensures { result ≡ ltb most (length (text_of spelled.now)) }
{
    if spelled.len() <= most {
        return false;
    }
    let mut n: usize = 0;
    let mut i: usize = 0;
    while n <= most {
        if spelled.len() <= i {
            return false;
        }
        if is_plain(spelled[i]) {
            n += 1;
            i += 1;
        } else {
            let Next::Character(x) = next_char(spelled, i) else {
                return false;
            };
            n += size(x);
            i = i + 1 + x.more;
        }
    }
    true
}
