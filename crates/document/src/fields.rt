// The values of an object's fields by their bytes. No bytes stand for a value that is missing, twice there or "".
ghost use Rattle.std.specs.Prelude.{[], ◌≡◌, ◌≤◌, length};
ghost use Rattle.notation.specs.Choice.{◌⇒◌else◌};
ghost use Rattle.json_text.specs.Tree.{Json};
ghost use Rattle.walk.specs.Part.{Whole, inside};
ghost use Rattle.walk.specs.inner.Kind.{kind_at};
ghost use Rattle.slots.specs.inner.Blank.{blank_text};
ghost use Rattle.document.specs.Values.{integer_in};
ghost use Rattle.document.specs.inner.Values.{kind_code, found_bytes, FoundWhole, member_of, spelled_by, text_by, array_by, is_id};

use crate::find;
use decimal::spelling::read_decimal;
use slots::{Found, is_blank_text};
use text::compare::text_is;
use walk::{ValueKind, cut, value_kind};

// The kinds that are asked for.
pub const NUMBER: u8 = 2;

pub const STRING: u8 = 3;

pub const ARRAY: u8 = 4;

pub const OBJECT: u8 = 5;

// The kind of a value, by number.
pub fn code_of(q: &[u8]) -> u8
    ensures { result ≡ kind_code (kind_at q.now) }
{
    match value_kind(q) {
        ValueKind::Null => 0,
        ValueKind::Boolean => 1,
        ValueKind::Number => NUMBER,
        ValueKind::String => STRING,
        ValueKind::Array => ARRAY,
        ValueKind::Object => OBJECT,
    }
}

// No bytes.
fn no_bytes(q: &[u8]) -> &[u8]
    ensures { result.now ≡ [] }
{
    cut(q, 0, 0)
}

// A value as it stands, and of "" nothing.
fn unless_blank(q: &[u8]) -> &[u8]
    ensures { ((x : Json) → Whole q.now x → result.now ≡ (blank_text x ⇒ [] else q.now)) × (length result.now ≤ length q.now) }
{
    if is_blank_text(q) {
        return no_bytes(q);
    }
    q
}

// The bytes of what was found in the object `p`.
pub fn value_at(p: &[u8], found: Found) -> &[u8]
    ensures { (FoundWhole p.now found → result.now ≡ found_bytes p.now found) × (length result.now ≤ length p.now) }
{
    match found {
        Found::Missing => no_bytes(p),
        Found::Once(from, upto) => unless_blank(cut(p, from, upto)),
        Found::Twice => no_bytes(p),
    }
}

// The member of a name, of the object `p`, which is one that stage A read.
pub fn member<'a>(p: &'a [u8], name: &[u8]) -> &'a [u8]
    ensures { (x : Json) → Whole p.now x → result.now ≡ member_of p.now name.now }
{
    if value_kind(p) != ValueKind::Object {
        return no_bytes(p);
    }
    value_at(p, find(p, name))
}

// What stands between the quotation marks of a string.
pub fn unquoted(q: &[u8]) -> &[u8]
    ensures { result.now ≡ inside q.now }
{
    if q.len() < 2 {
        return no_bytes(q);
    }
    cut(q, 1, q.len() - 1)
}

// An array as it stands; of anything else nothing.
pub fn array_in(q: &[u8]) -> &[u8]
    ensures { result.now ≡ array_by q.now }
{
    if value_kind(q) != ValueKind::Array {
        return no_bytes(q);
    }
    q
}

// An integer that was found to be one.
pub fn integer_in(q: &[u8]) -> u64
    ensures { result ≡ integer_in (spelled_by q.now) }
{
    if value_kind(q) != ValueKind::Number {
        return 0;
    }
    let Some(d) = read_decimal(q) else {
        return 0;
    };
    d.whole
}

// Whether a value is a text, and this one.
pub fn is_id(q: &[u8], id: &[u8]) -> bool
    ensures { result ≡ is_id id.now (text_by q.now) }
{
    value_kind(q) == ValueKind::String && text_is(unquoted(q), id)
}
