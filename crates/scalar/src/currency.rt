// Whether a text is a currency.
ghost use Rattle.std.specs.Prelude.{◌≡◌};
ghost use Rattle.text.specs.Text.{text_of};
ghost use Rattle.scalar.specs.Scalars.{currency};

use text::ascii::is_capital;
use text::walk::{cursor_at, next_byte};

// The text is three capital letters.
pub fn is_currency(spelled: &[u8]) -> bool
    ensures { result ≡ currency (text_of spelled.now) }
{
    let mut c = cursor_at(0);
    let mut n: usize = 0;
    while let Some((b, after)) = next_byte(spelled, c) {
        if n == 3 || !is_capital(b) {
            return false;
        }
        c = after;
        n += 1;
    }
    n == 3
}
