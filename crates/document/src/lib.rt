// Where the records of a file stand in its bytes: along the names that lead to them, and then item by item. The file is one that stage A read, so
// values are passed over and not read again.
#![tactic(auto)]

ghost use Rattle.std.specs.Prelude.{◌≡◌, ◌+◌, ◌<◌, length};
ghost use Rattle.json_text.specs.Tree.{Json};
ghost use Rattle.walk.specs.Walk.{items_of};
ghost use Rattle.walk.specs.Part.{Whole};
ghost use Rattle.walk.specs.inner.Along.{AlongItems};
ghost use Rattle.schema.specs.Tables.{sheet_shape};
ghost use Rattle.slots.specs.Found.{found_in};
ghost use Rattle.document.specs.Spans.{top_span, nth, record_span};
ghost use Rattle.document.specs.inner.Spans.{Readable, Listed, ValueFrom, RecordsFrom};

use lexeme::blank::skip_blanks;
use lexeme::front::first;
use schema::lines::table_bytes;
use schema::names::name_in;
use schema::ways::steps_to;
use slots::Found;
use text::compare::text_is;
use walk::tail::last_end;
use walk::{cut, pass_item, pass_member, pass_name, pass_value};

pub mod fields;

// A part of a file's bytes, from one place up to another.
#[derive(Clone, Copy, Debug, PartialEq, Eq)]
pub struct Span {
    pub from: usize,
    pub upto: usize,
}

// What the object `p` holds under a name. Its values are passed over: it is one that stage A read.
pub fn find(p: &[u8], name: &[u8]) -> Found
    ensures { (x : Json) → Whole p.now x → result ≡ found_in p.now name.now }
{
    let mut found = Found::Missing;
    if first(p, 0) != b'{' {
        return found;
    }
    let mut at: usize = 1;
    while let Some(m) = pass_member(p, at) {
        if text_is(&p[m.name..m.name_end], name) {
            found = found.one_more(m.value, m.value_end);
        }
        at = m.next;
    }
    found
}

// The value of the whole file, without the blanks around it.
pub fn top_span(s: &[u8]) -> Option<Span>
    ensures { Readable s.now → result ≡ top_span s.now }
{
    let from = skip_blanks(s, 0);
    if s.len() <= from {
        return None;
    }
    Some(Span {
        from,
        upto: last_end(s, from),
    })
}

// The rest of `p`, an object with whatever follows it, from the first value of a name on; no bytes where there is none.
fn value_from<'a>(p: &'a [u8], name: &[u8]) -> &'a [u8]
    ensures { ValueFrom p.now name.now result.now }
{
    if first(p, 0) != b'{' {
        return cut(p, 0, 0);
    }
    let mut at: usize = 1;
    while let Some(n) = pass_name(p, at) {
        if text_is(&p[n.name..n.name_end], name) {
            return &p[n.value..];
        }
        let Some(m) = pass_value(p, n) else {
            break;
        };
        at = m.next;
    }
    cut(p, 0, 0)
}

// The rest of a file of a sheet from its records on; no bytes where the number is no sheet's, or that of one without records. Nothing is passed over but what
// stands before them.
// Shut out: an object's member of a name on the way that stands deeper down.
pub fn records_from(sheet: u8, s: &[u8]) -> &[u8]
    ensures { RecordsFrom sheet s.now result.now }
{
    let steps = steps_to(sheet);
    if steps.count == 0 {
        return cut(s, 0, 0);
    }
    let table = table_bytes();
    let from = skip_blanks(s, 0);
    let top = value_from(&s[from..], name_in(&table, steps.first));
    if steps.count == 1 {
        return top;
    }
    let inner = value_from(top, name_in(&table, steps.second));
    if steps.count == 2 {
        return inner;
    }
    value_from(inner, name_in(&table, steps.third))
}

// The n-th item, counted from 1, of the array at the front of `p`, whose places are counted on from a number.
fn nth_span(p: &[u8], from: usize, n: usize) -> Option<Span>
    requires { from + length p.now < 18_446_744_073_709_551_616 }
    ensures { AlongItems p.now 1 → result ≡ nth from (items_of p.now) n }
{
    if n == 0 {
        return None;
    }
    let mut left = n;
    let mut at: usize = 1;
    while let Some(m) = pass_item(p, at) {
        if left == 1 {
            return Some(Span {
                from: from + m.value,
                upto: from + m.value_end,
            });
        }
        left -= 1;
        at = m.next;
    }
    None
}

// The n-th record of a file of a sheet, counted from 1.
// Shut out: records counted from 0; the last record shown where n is past it.
pub fn record_span(sheet: u8, s: &[u8], n: usize) -> Option<Span>
    ensures { Listed sheet s.now → result ≡ record_span (sheet_shape sheet) s.now n }
{
    let p = records_from(sheet, s);
    if p.is_empty() {
        return None;
    }
    nth_span(p, s.len() - p.len(), n)
}
