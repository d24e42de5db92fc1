// Escapes.
ghost use Rattle.std.specs.Prelude.{◌≡◌, drop};
ghost use Rattle.lexeme.specs.Character as spec;
ghost use Rattle.lexeme.specs.Character.{paired};
ghost use Rattle.character.specs.inner.Short.{short};

use super::hex::quad;
use super::surrogate::unit;
use lexeme::front::{ahead, byte_at};
use lexeme::{Char, Next};
use word::kind::Kind;

// The escape \u, its backslash at `at`.
#[tactic(auto, unfolding(lexeme::specs::Character::unicode), using(crate::proofs::Digits::quad_few))]
fn unicode(s: &[u8], at: usize) -> Next
    ensures { result ≡ spec.unicode paired (drop at s.now) (spec.quad (drop 2 (drop at s.now))) }
{
    match quad(s, ahead(s, at, 2)) {
        Ok(v) => unit(s, at, v),
        Err(n) => Next::Fault(Kind::NOT_JSON, n + 2),
    }
}

// What the byte after a backslash stands for.
#[tactic(auto, unfolding(lexeme::specs::Character::short))]
pub fn short(b: u8) -> Option<u8>
    ensures { result ≡ short b }
{
    match b {
        b'"' | b'\\' | b'/' => Some(b),
        b'b' => Some(0x08),
        b'f' => Some(0x0c),
        b'n' => Some(b'\n'),
        b'r' => Some(b'\r'),
        b't' => Some(b'\t'),
        _ => None,
    }
}

// An escape, its backslash at `at`.
#[tactic(auto, unfolding(lexeme::specs::Character::escape))]
pub fn escape(s: &[u8], at: usize) -> Next
    ensures { result ≡ spec.escape paired (drop at s.now) }
{
    let b = byte_at(s, at, 1);
    if b == b'u' {
        return unicode(s, at);
    }
    match short(b) {
        Some(b0) => Next::Character(Char {
            b0,
            b1: 0,
            b2: 0,
            b3: 0,
            len: 1,
            more: 1,
        }),
        None => Next::Fault(Kind::NOT_JSON, 1),
    }
}
