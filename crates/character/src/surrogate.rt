// Surrogate escapes, which pair from left to right.
ghost use Rattle.std.specs.Prelude.{◌≡◌, drop};
ghost use Rattle.lexeme.specs.Character as spec;
ghost use Rattle.lexeme.specs.Character.{paired};

use super::hex::quad;
use super::utf8::encoded;
use lexeme::Next;
use lexeme::front::{ahead, byte_at};
use word::kind::Kind;

// Four digits as the value of a low surrogate, if they are that.
#[tactic(auto, unfolding(lexeme::specs::Character::low_of, lexeme::specs::Character::within))]
fn low_of(q: Result<u32, usize>) -> Option<u32>
    ensures { result ≡ spec.low_of q }
{
    match q {
        Ok(w @ 0xdc00..=0xdfff) => Some(w),
        _ => None,
    }
}

// The low surrogate that stands where a high surrogate escape wants one.
#[tactic(auto, unfolding(lexeme::specs::Character::trail))]
pub fn trail(s: &[u8], at: usize) -> Option<u32>
    ensures { result ≡ spec.trail (drop at s.now) }
{
    if byte_at(s, at, 0) != b'\\' || byte_at(s, at, 1) != b'u' {
        return None;
    }
    low_of(quad(s, ahead(s, at, 2)))
}

// The code point of a high and a low surrogate.
#[tactic(auto, unfolding(lexeme::specs::Character::combined))]
fn combined(v: u32, w: u32) -> u32
    ensures { result ≡ spec.combined v w }
{
    0x10000 + v % 1024 * 1024 + w % 1024
}

// A high surrogate escape of the value v, by what follows it.
#[tactic(auto, unfolding(lexeme::specs::Character::high, lexeme::specs::Character::alone))]
fn high(v: u32, t: Option<u32>) -> Next
    ensures { result ≡ spec.high paired v t }
{
    match t {
        None => Next::Fault(Kind::UNPAIRED, 0),
        Some(w) => encoded(combined(v, w), 11),
    }
}

// The escape \u of the value v, its backslash at `at`.
#[tactic(auto, unfolding(lexeme::specs::Character::unit, lexeme::specs::Character::alone, lexeme::specs::Character::within))]
pub fn unit(s: &[u8], at: usize, v: u32) -> Next
    ensures { result ≡ spec.unit paired (drop at s.now) v }
{
    match v {
        0xdc00..=0xdfff => Next::Fault(Kind::UNPAIRED, 0),
        0xd800..=0xdbff => high(v, trail(s, ahead(s, at, 6))),
        _ => encoded(v, 5),
    }
}
