// Characters of two to four bytes as they stand, told by the ranges of their bytes: for a character alone the table of classes would be laid out.
ghost use Rattle.std.specs.Prelude.{◌≡◌, ◌<◌, drop, IfSome};
ghost use Rattle.lexeme.specs.Character as spec;
ghost use Rattle.lexeme.specs.Character.{paired};
ghost use Rattle.lexeme.specs.inner.Lead.{lead, next_by};
ghost use Rattle.character.specs.inner.Wide.{tail_byte, standing, Told};

use super::range::within;
use lexeme::Char;
use lexeme::front::byte_at;

// Whether the byte at k places from `at` lies between lo and hi.
fn byte_within(s: &[u8], at: usize, k: usize, lo: u32, hi: u32) -> bool
    ensures { result ≡ spec.within lo hi (spec.byte (drop at s.now) k) }
{
    within(lo, hi, u32::from(byte_at(s, at, k)))
}

// How many bytes a form of UTF-8 has that is whole. Some first bytes narrow the second to those from lo to hi.
#[tactic(auto, unfolding(lexeme::specs::Character::utf2))]
fn length2(s: &[u8], at: usize) -> Option<usize>
    ensures { IfSome result (λ n. Told (drop at s.now) n (spec.utf2 (drop at s.now))) }
{
    byte_within(s, at, 1, 0x80, 0xbf).then_some(2)
}

#[tactic(auto, unfolding(lexeme::specs::Character::utf3))]
fn length3(s: &[u8], at: usize, lo: u32, hi: u32) -> Option<usize>
    ensures { IfSome result (λ n. Told (drop at s.now) n (spec.utf3 lo hi (drop at s.now))) }
{
    let whole = byte_within(s, at, 1, lo, hi) && byte_within(s, at, 2, 0x80, 0xbf);
    whole.then_some(3)
}

#[tactic(auto, unfolding(lexeme::specs::Character::utf4))]
fn length4(s: &[u8], at: usize, lo: u32, hi: u32) -> Option<usize>
    ensures { IfSome result (λ n. Told (drop at s.now) n (spec.utf4 lo hi (drop at s.now))) }
{
    let whole = byte_within(s, at, 1, lo, hi)
        && byte_within(s, at, 2, 0x80, 0xbf)
        && byte_within(s, at, 3, 0x80, 0xbf);
    whole.then_some(4)
}

// How many bytes the character past ASCII at `at` has, by its first byte b.
// Shut out: an overlong form, a surrogate or a number past 10FFFF.
#[tactic(auto, unfolding(lexeme::specs::inner::Lead::lead, lexeme::specs::inner::Lead::next_by))]
pub fn wide_length(s: &[u8], at: usize, b: u8) -> Option<usize>
    ensures { IfSome result (λ n. Told (drop at s.now) n (next_by paired (drop at s.now) (lead b))) }
{
    match b {
        0xc2..=0xdf => length2(s, at),
        0xe0 => length3(s, at, 0xa0, 0xbf),
        0xed => length3(s, at, 0x80, 0x9f),
        0xe1..=0xef => length3(s, at, 0x80, 0xbf),
        0xf0 => length4(s, at, 0x90, 0xbf),
        0xf1..=0xf3 => length4(s, at, 0x80, 0xbf),
        0xf4 => length4(s, at, 0x80, 0x8f),
        _ => None,
    }
}

// The byte k of a character of n bytes that stands at `at`; 0 past its last.
pub fn tail_byte(s: &[u8], at: usize, n: usize, k: usize) -> u8
    ensures { result ≡ tail_byte (drop at s.now) n k }
{
    if k < n { byte_at(s, at, k) } else { 0 }
}

// The character of n bytes that stands at `at`.
pub fn standing_at(s: &[u8], at: usize, n: usize) -> Char
    requires { 0 < n }
    ensures { result ≡ standing (drop at s.now) n }
{
    Char {
        b0: byte_at(s, at, 0),
        b1: byte_at(s, at, 1),
        b2: tail_byte(s, at, n, 2),
        b3: tail_byte(s, at, n, 3),
        len: n,
        more: n - 1,
    }
}
