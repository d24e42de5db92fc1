// Characters as UTF-8: read as they stand, and made of a code point.
ghost use Rattle.std.specs.Prelude.{◌≡◌, drop};
ghost use Rattle.lexeme.specs.Character as spec;
ghost use Rattle.lexeme.specs.inner.Class.{least_of, most_of, Tails, Classifies};

use super::range::tail_within;
use lexeme::class::Class;
use lexeme::front::byte_at;
use lexeme::{Char, Next};
use word::kind::Kind;

// UTF-8 of two, three and four bytes, by the classes of those after the first; some first bytes narrow the second to the classes from lo to hi.
#[tactic(auto, unfolding(lexeme::specs::Character::utf2, lexeme::specs::inner::Class::least_of, lexeme::specs::inner::Class::most_of), using(lexeme::specs::inner::Class::from80, lexeme::specs::inner::Class::from90, lexeme::specs::inner::Class::from_a0))]
pub fn utf2(table: &[u8; 256], s: &[u8], at: usize) -> Next
    requires { Classifies table.now }
    ensures { result ≡ spec.utf2 (drop at s.now) }
{
    if tail_within(table, s, at, 1, Class::TAIL_80, Class::TAIL_A0) {
        return Next::Character(Char {
            b0: byte_at(s, at, 0),
            b1: byte_at(s, at, 1),
            b2: 0,
            b3: 0,
            len: 2,
            more: 1,
        });
    }
    Next::Fault(Kind::NOT_JSON, 1)
}

#[tactic(auto, unfolding(lexeme::specs::Character::utf3, lexeme::specs::inner::Class::least_of, lexeme::specs::inner::Class::most_of), using(lexeme::specs::inner::Class::from80, lexeme::specs::inner::Class::from90, lexeme::specs::inner::Class::from_a0))]
pub fn utf3(table: &[u8; 256], s: &[u8], at: usize, lo: u8, hi: u8) -> Next
    requires { Classifies table.now × Tails lo hi }
    ensures { result ≡ spec.utf3 (least_of lo) (most_of hi) (drop at s.now) }
{
    if !tail_within(table, s, at, 1, lo, hi) {
        return Next::Fault(Kind::NOT_JSON, 1);
    }
    if !tail_within(table, s, at, 2, Class::TAIL_80, Class::TAIL_A0) {
        return Next::Fault(Kind::NOT_JSON, 2);
    }
    Next::Character(Char {
        b0: byte_at(s, at, 0),
        b1: byte_at(s, at, 1),
        b2: byte_at(s, at, 2),
        b3: 0,
        len: 3,
        more: 2,
    })
}

#[tactic(auto, unfolding(lexeme::specs::Character::utf4, lexeme::specs::inner::Class::least_of, lexeme::specs::inner::Class::most_of), using(lexeme::specs::inner::Class::from80, lexeme::specs::inner::Class::from90, lexeme::specs::inner::Class::from_a0))]
pub fn utf4(table: &[u8; 256], s: &[u8], at: usize, lo: u8, hi: u8) -> Next
    requires { Classifies table.now × Tails lo hi }
    ensures { result ≡ spec.utf4 (least_of lo) (most_of hi) (drop at s.now) }
{
    if !tail_within(table, s, at, 1, lo, hi) {
        return Next::Fault(Kind::NOT_JSON, 1);
    }
    if !tail_within(table, s, at, 2, Class::TAIL_80, Class::TAIL_A0) {
        return Next::Fault(Kind::NOT_JSON, 2);
    }
    if !tail_within(table, s, at, 3, Class::TAIL_80, Class::TAIL_A0) {
        return Next::Fault(Kind::NOT_JSON, 3);
    }
    Next::Character(Char {
        b0: byte_at(s, at, 0),
        b1: byte_at(s, at, 1),
        b2: byte_at(s, at, 2),
        b3: byte_at(s, at, 3),
        len: 4,
        more: 3,
    })
}

// The UTF-8 of the code point v.
#[tactic(auto, unfolding(lexeme::specs::Character::encoded))]
pub fn encoded(v: u32, more: usize) -> Next
    ensures { result ≡ spec.encoded v more }
{
    if v < 0x80 {
        return Next::Character(Char {
            b0: v as u8,
            b1: 0,
            b2: 0,
            b3: 0,
            len: 1,
            more,
        });
    }
    let last = (0x80 + v % 64) as u8;
    if v < 0x800 {
        return Next::Character(Char {
            b0: (0xc0 + v / 64) as u8,
            b1: last,
            b2: 0,
            b3: 0,
            len: 2,
            more,
        });
    }
    let middle = (0x80 + v / 64 % 64) as u8;
    if v < 0x10000 {
        return Next::Character(Char {
            b0: (0xe0 + v / 4096) as u8,
            b1: middle,
            b2: last,
            b3: 0,
            len: 3,
            more,
        });
    }
    let second = (0x80 + v / 4096 % 64) as u8;
    Next::Character(Char {
        b0: (0xf0 + v / 262144 % 8) as u8,
        b1: second,
        b2: middle,
        b3: last,
        len: 4,
        more,
    })
}
