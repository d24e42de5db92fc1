// One level of a JSON value's bytes at a time: the members of an object, the items of an array, the kind of a value.
#![tactic(auto)]

ghost use Rattle.std.specs.Prelude.{◌≡◌, ℕ, ◌-◌, length, drop};
ghost use Rattle.lexeme.specs.Tokens.{blanks};
ghost use Rattle.walk.specs.Walk.{part, onward};
ghost use Rattle.walk.specs.inner.Kind.{kind_at};
ghost use Rattle.walk.specs.inner.Along.{ItemPassed, MemberPassed, NamePassed};

use crate::skip::{skip_value, string_end};
use lexeme::blank::skip_blanks;
use lexeme::front::{ahead, first, place};

mod mark;
pub mod skip;
pub mod tail;

// A member of an object: where the text of its name stands, without the quotation marks; where its value stands; where the next member is looked for.
#[derive(Clone, Copy, Debug, PartialEq, Eq)]
pub struct Member {
    pub name: usize,
    pub name_end: usize,
    pub value: usize,
    pub value_end: usize,
    pub next: usize,
}

// Its front: where the text of its name stands, and where its value begins.
#[derive(Clone, Copy, Debug, PartialEq, Eq)]
pub struct Named {
    pub name: usize,
    pub name_end: usize,
    pub value: usize,
}

// An item of an array: where it stands, and where the next one is looked for.
#[derive(Clone, Copy, Debug, PartialEq, Eq)]
pub struct Item {
    pub value: usize,
    pub value_end: usize,
    pub next: usize,
}

// What kind of value stands somewhere.
#[derive(Clone, Copy, Debug, PartialEq, Eq)]
pub enum ValueKind {
    Null,
    Boolean,
    Number,
    String,
    Array,
    Object,
}

// The member of the object `p` that is looked for at `at`, with name and value passed over and not read: the member there for an object that stage A
// passed, and in order in any bytes.
pub fn pass_member(p: &[u8], at: usize) -> Option<Member>
    ensures { MemberPassed p.now at result }
{
    let n = pass_name(p, at)?;
    pass_value(p, n)
}

// The front of a member alone.
pub fn pass_name(p: &[u8], at: usize) -> Option<Named>
    ensures { NamePassed p.now at result }
{
    let quote = skip_blanks(p, at);
    if first(p, quote) != b'"' {
        return None;
    }
    let closed = string_end(p, quote + 1);
    let colon = skip_blanks(p, closed);
    if first(p, colon) != b':' {
        return None;
    }
    Some(Named {
        name: quote + 1,
        name_end: closed - 1,
        value: skip_blanks(p, colon + 1),
    })
}

// The member whose name has been read, with its value passed over.
pub fn pass_value(p: &[u8], n: Named) -> Option<Member>
    ensures { (at : ℕ) → NamePassed p.now at (Some n) → MemberPassed p.now at result }
{
    let value_end = skip_value(p, n.value);
    if value_end <= n.value {
        return None;
    }
    Some(Member {
        name: n.name,
        name_end: n.name_end,
        value: n.value,
        value_end,
        next: next_place(p, value_end),
    })
}

// The item of the array `p` that is looked for at `at`, with its value passed over and not read: the item there for an array that stage A passed, and in
// order in any bytes.
pub fn pass_item(p: &[u8], at: usize) -> Option<Item>
    ensures { ItemPassed p.now at result }
{
    let value = skip_blanks(p, at);
    let value_end = skip_value(p, value);
    if value_end <= value {
        return None;
    }
    Some(Item {
        value,
        value_end,
        next: next_place(p, value_end),
    })
}

// The bytes from one place up to another; those that are there, where the places are past the end.
pub fn cut(s: &[u8], from: usize, upto: usize) -> &[u8]
    ensures { result.now ≡ part s.now from upto }
{
    s.get(from..upto.min(s.len())).unwrap_or(&[])
}

// The bytes of an item.
pub fn item_bytes(p: &[u8], m: Item) -> &[u8]
    ensures { result.now ≡ part p.now m.value m.value_end }
{
    cut(p, m.value, m.value_end)
}

// Where the next element is looked for, after one that ends at `at`.
pub fn next_place(p: &[u8], at: usize) -> usize
    ensures { result ≡ onward p.now (blanks (drop at p.now)) }
{
    let i = skip_blanks(p, at);
    if first(p, i) == b',' {
        return i + 1;
    }
    i
}

// Just past the closing bracket that is looked for at `at`.
pub fn closed_end(p: &[u8], at: usize) -> usize
    ensures { result ≡ length p.now - length (drop 1 (blanks (drop at p.now))) }
{
    let i = skip_blanks(p, at);
    place(p, ahead(p, i, 1))
}

// The kind of the value `p`, by its first byte. By plain tests: the table of classes would be laid out for each value.
#[tactic(auto, unfolding(crate::specs::inner::Kind::kind_at, lexeme::specs::inner::Start::start, lexeme::specs::Numbers::digit, lexeme::specs::Character::within))]
pub fn value_kind(p: &[u8]) -> ValueKind
    ensures { result ≡ kind_at p.now }
{
    match first(p, 0) {
        b'"' => ValueKind::String,
        b'[' => ValueKind::Array,
        b'{' => ValueKind::Object,
        b'-' | b'0'..=b'9' => ValueKind::Number,
        b't' | b'f' => ValueKind::Boolean,
        _ => ValueKind::Null,
    }
}
