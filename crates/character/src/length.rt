// How many bytes an escape takes, found without the character that it stands for; none where it has a fault.
ghost use Rattle.std.specs.Prelude.{◌≡◌, drop};
ghost use Rattle.lexeme.specs.Character as spec;
ghost use Rattle.lexeme.specs.Character.{paired};
ghost use Rattle.character.specs.inner.Length.{taken};

use super::escape::short;
use super::hex::quad;
use super::surrogate::trail;
use lexeme::front::{ahead, byte_at};

// The escape \u of the value v, its backslash at `at`.
#[tactic(auto, unfolding(lexeme::specs::Character::unit, lexeme::specs::Character::alone, lexeme::specs::Character::high, lexeme::specs::Character::within), using(crate::proofs::Lengths::encoded_taken))]
fn unit_length(s: &[u8], at: usize, v: u32) -> Option<usize>
    ensures { result ≡ taken (spec.unit paired (drop at s.now) v) }
{
    match v {
        0xdc00..=0xdfff => None,
        0xd800..=0xdbff => trail(s, ahead(s, at, 6)).and(Some(12)),
        _ => Some(6),
    }
}

// The escape \u, its backslash at `at`.
#[tactic(auto, unfolding(lexeme::specs::Character::unicode))]
fn unicode_length(s: &[u8], at: usize) -> Option<usize>
    ensures { result ≡ taken (spec.unicode paired (drop at s.now) (spec.quad (drop 2 (drop at s.now)))) }
{
    let v = quad(s, ahead(s, at, 2)).ok()?;
    unit_length(s, at, v)
}

// An escape, its backslash at `at`.
// Shut out: a surrogate escape passed over with no partner.
#[tactic(auto, unfolding(lexeme::specs::Character::escape))]
pub fn escape_length(s: &[u8], at: usize) -> Option<usize>
    ensures { result ≡ taken (spec.escape paired (drop at s.now)) }
{
    let b = byte_at(s, at, 1);
    if b == b'u' {
        return unicode_length(s, at);
    }
    short(b).and(Some(2))
}
