// Letters of ASCII, its bytes that need no escape, and its characters in escapes.
ghost use Rattle.std.specs.Prelude.{true, ◌≡◌, drop};
ghost use Rattle.lexeme.specs.Character.{within};
ghost use Rattle.text.specs.Text as spec;
ghost use Rattle.text.specs.inner.Walk.{alone, Escapes, LowEscape};

use character::hex::hex_value;

pub fn is_capital(b: u8) -> bool
    ensures { result ≡ within 0x41 0x5a b }
{
    b.is_ascii_uppercase()
}

pub fn lower(b: u8) -> u8
    ensures { result ≡ spec.lower b }
{
    if is_capital(b) { b + 0x20 } else { b }
}

// The byte stands for itself in a string. By plain tests: the table of classes would be laid out for each text. Most bytes are letters, and those are
// above the backslash.
#[tactic(auto, using(crate::proofs::Plain::above, crate::proofs::Plain::backslash, crate::proofs::Plain::control, crate::proofs::Plain::below))]
pub fn is_plain(b: u8) -> bool
    ensures { result ≡ alone b }
{
    if b'\\' < b {
        return b < 0x80;
    }
    b != b'\\' && 0x20 <= b && b != b'"'
}

// Whether an escape \u00 begins at a place, with room for two digits more.
fn opens_low(s: &[u8], at: usize) -> bool
    ensures { result ≡ true → LowEscape s.now at }
{
    at < s.len()
        && 6 <= s.len() - at
        && s[at] == b'\\'
        && s[at + 1] == b'u'
        && s[at + 2] == b'0'
        && s[at + 3] == b'0'
}

// The character of ASCII that an escape \u at a place stands for; 128, which no character of ASCII has, where there is no such escape. Most escapes are of
// this kind, and it is told without the bytes of any other character.
pub fn escaped(s: &[u8], at: usize) -> u8
    ensures { Escapes (drop at s.now) result }
{
    if !opens_low(s, at) {
        return 128;
    }
    let c = s[at + 4];
    if c < b'0' || b'7' < c {
        return 128;
    }
    let Some(d) = hex_value(u32::from(s[at + 5])) else {
        return 128;
    };
    (c - b'0') * 16 + d as u8
}
