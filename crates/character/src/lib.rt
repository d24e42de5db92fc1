// One character of a string, found by looking ahead from a place.
// Past the end every byte reads as 0, which no place of a string admits, so every function is total.
#![tactic(auto)]

pub mod escape;
pub mod hex;
pub mod length;
pub mod range;
pub mod surrogate;
pub mod utf8;
pub mod wide;

ghost use Rattle.std.specs.Prelude.{◌≡◌, drop};
ghost use Rattle.lexeme.specs.Character as spec;
ghost use Rattle.lexeme.specs.Character.{paired};
ghost use Rattle.lexeme.specs.inner.Class.{lead_of, Classifies};
ghost use Rattle.lexeme.specs.inner.Lead.{next_by};

use escape::escape;
use lexeme::class::{Class, class_by, class_table};
use lexeme::front::first;
use lexeme::{Char, Next};
use utf8::{utf2, utf3, utf4};
use wide::{standing_at, wide_length};
use word::kind::Kind;

// What stands at `at`, inside a string, where the first byte has the class.
// Shut out: an overlong form, a surrogate or a number past 10FFFF let through as UTF-8; a control character taken for a plain one.
#[tactic(auto, unfolding(lexeme::specs::inner::Lead::next_by, lexeme::specs::inner::Class::lead_of, lexeme::specs::inner::Class::least_of, lexeme::specs::inner::Class::most_of), using(lexeme::specs::inner::Class::from80, lexeme::specs::inner::Class::from90, lexeme::specs::inner::Class::from_a0))]
pub fn next_by(table: &[u8; 256], s: &[u8], at: usize, class: u8) -> Next
    requires { Classifies table.now }
    ensures { result ≡ next_by paired (drop at s.now) (lead_of class) }
{
    if class < Class::QUOTE {
        return Next::Character(Char {
            b0: first(s, at),
            b1: 0,
            b2: 0,
            b3: 0,
            len: 1,
            more: 0,
        });
    }
    match class {
        Class::QUOTE => Next::Quote,
        Class::BACKSLASH => escape(s, at),
        Class::TWO => utf2(table, s, at),
        Class::THREE_E0 => utf3(table, s, at, Class::TAIL_A0, Class::TAIL_A0),
        Class::THREE => utf3(table, s, at, Class::TAIL_80, Class::TAIL_A0),
        Class::THREE_ED => utf3(table, s, at, Class::TAIL_80, Class::TAIL_90),
        Class::FOUR_F0 => utf4(table, s, at, Class::TAIL_90, Class::TAIL_A0),
        Class::FOUR => utf4(table, s, at, Class::TAIL_80, Class::TAIL_A0),
        Class::FOUR_F4 => utf4(table, s, at, Class::TAIL_80, Class::TAIL_80),
        _ => Next::Fault(Kind::NOT_JSON, 0),
    }
}

// What stands at `at`, inside a string. Escapes and characters past ASCII are told without the table of classes, which would be laid out for each.
// Shut out: a surrogate escape with no partner let through; a fault named at the backslash, and not at the first wrong byte after it.
pub fn next_char(s: &[u8], at: usize) -> Next
    ensures { result ≡ spec.next paired (drop at s.now) }
{
    let b = first(s, at);
    if b == b'\\' {
        return escape(s, at);
    }
    if let Some(n) = wide_length(s, at, b) {
        return Next::Character(standing_at(s, at, n));
    }
    let table = class_table();
    next_by(&table, s, at, class_by(&table, b))
}
