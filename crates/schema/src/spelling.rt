// The first bytes of a spelled text, in an array.
ghost use Rattle.text.specs.Text.{text_of};
ghost use Rattle.schema.specs.inner.Spelling.{Reads};

use crate::Prefix;
use text::ascii::{escaped, is_plain};
use text::walk::{cursor_at, read_front};

// The first 32 bytes of a text, or all where it has fewer, whatever its characters are.
fn read_any(spelled: &[u8]) -> Prefix
    ensures { Reads (text_of spelled.now) result }
{
    let front = read_front(spelled, cursor_at(0), 32);
    let bytes = front.bytes;
    Prefix {
        bytes,
        count: front.count,
    }
}

// The same, where characters of ASCII as they are or by escapes \u are taken one by one.
pub fn read_prefix(spelled: &[u8]) -> Prefix
    ensures { Reads (text_of spelled.now) result }
{
    let mut bytes: [u8; 32] = [0; 32];
    let mut i: usize = 0;
    for count in 0..32 {
        if spelled.len() <= i {
            return Prefix { bytes, count };
        }
        if is_plain(spelled[i]) {
            bytes[count] = spelled[i];
            i += 1;
        } else {
            let b = escaped(spelled, i);
            if 128 <= b {
                return read_any(spelled);
            }
            bytes[count] = b;
            i += 6;
        }
    }
    Prefix { bytes, count: 32 }
}
