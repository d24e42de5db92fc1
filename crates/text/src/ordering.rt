// Texts in order, by the bytes that they stand for.
ghost use Rattle.std.specs.Prelude.{◌≡◌, [], ◌≤◌, take, drop};
ghost use Rattle.text.specs.Text.{text_of, meant};
ghost use Rattle.text.specs.Ordering.{order_of};
ghost use Rattle.text.specs.inner.Walk.{left, left_by, same_plain, Ahead};

use crate::Cursor;
use crate::ascii::is_plain;
use crate::codes::{ascii_at, code_at, same_code, same_wide, width};
use crate::compare::same_bytes;
use crate::walk::{cursor_at, next_byte, next_meant, peek};
use std::cmp::Ordering;

// Whether two spellings have the same byte at a place, and it stands for itself.
#[tactic(auto, using(crate::proofs::Seeing::plain_rules))]
fn same_plain(a: &[u8], b: &[u8], at: usize) -> bool
    ensures { result ≡ same_plain (drop at a.now) (drop at b.now) }
{
    at < a.len() && at < b.len() && a[at] == b[at] && is_plain(a[at])
}

// How many bytes two spellings begin with that are the same and stand for themselves: what follows them decides the order, also where the second has raw bytes.
fn shared_front(a: &[u8], b: &[u8]) -> usize
    ensures { Ahead a.now b.now result }
{
    for i in 0..a.len() {
        if !same_plain(a, b, i) {
            return i;
        }
    }
    a.len()
}

// How a text that has ended stands to what is left of another at a cursor.
fn order_at_end(s: &[u8], c: Cursor, raw: bool) -> Ordering
    ensures { result ≡ order_of [] (left_by raw s.now c) }
{
    match next_meant(s, c, raw) {
        None => Ordering::Equal,
        Some((_, _)) => Ordering::Less,
    }
}

// The order of what is left of two texts at a cursor of each, byte by byte.
fn order_left(a: &[u8], b: &[u8], c: Cursor, d: Cursor, raw: bool) -> Ordering
    ensures { result ≡ order_of (left a.now c) (left_by raw b.now d) }
{
    let mut first = c;
    let mut second = d;
    while let Some((x, after)) = next_byte(a, first) {
        let Some((y, beyond)) = next_meant(b, second, raw) else {
            return Ordering::Greater;
        };
        if x != y {
            return x.cmp(&y);
        }
        first = after;
        second = beyond;
    }
    order_at_end(b, second, raw)
}

// The order of what two spellings stand for from a place on. Characters that are the same are passed over whole, however they are spelled, and the bytes of
// the first two that differ decide.
fn order_spelled(a: &[u8], b: &[u8], at: usize) -> Ordering
    ensures { result ≡ order_of (text_of (drop at a.now)) (text_of (drop at b.now)) }
{
    let mut i = at;
    let mut j = at;
    loop {
        let x = ascii_at(a, i);
        let y = ascii_at(b, j);
        if same_code(x, y) {
            i += width(x);
            j += width(y);
        } else {
            let n = same_wide(a, b, i, j);
            if 0 < n {
                i += n;
                j += n;
            } else {
                let c = code_at(a, i);
                let d = code_at(b, j);
                if !same_code(c, d) {
                    return order_left(a, b, cursor_at(i), cursor_at(j), false);
                }
                i += width(c);
                j += width(d);
            }
        }
    }
}

// The order from a place on, where the second may be raw bytes.
fn order_from(a: &[u8], b: &[u8], at: usize, raw: bool) -> Ordering
    ensures { result ≡ order_of (text_of (drop at a.now)) (meant raw (drop at b.now)) }
{
    if raw {
        order_left(a, b, cursor_at(at), cursor_at(at), raw)
    } else {
        order_spelled(a, b, at)
    }
}

// The order by the first bytes from a place on, where both can be seen with nothing decoded and differ.
fn order_at(a: &[u8], b: &[u8], at: usize, raw: bool) -> Ordering
    ensures { result ≡ order_of (text_of (drop at a.now)) (meant raw (drop at b.now)) }
{
    let x = peek(a, at, false);
    let y = peek(b, at, raw);
    if 256 < x || 256 < y || (x == y && 0 < x) {
        return order_from(a, b, at, raw);
    }
    x.cmp(&y)
}

// The order of two texts, of which the first is spelled, and the second too unless its bytes are raw. A spelling may go on behind its text: the quotation mark
// that closes it ends the text. The same spelling is the same text, whatever it holds.
// Shut out: a text that comes after those which go on from it; a byte past ASCII that comes before the letters; raw bytes that are decoded.
pub fn order_of(a: &[u8], b: &[u8], raw: bool) -> Ordering
    ensures { result ≡ order_of (text_of a.now) (meant raw b.now) }
{
    if !raw && same_bytes(a, b) {
        return Ordering::Equal;
    }
    let at = shared_front(a, b);
    order_at(a, b, at, raw)
}

// How many bytes are the same at the front of what two spellings stand for from a place on, `most` of them at most.
fn shared_from(a: &[u8], b: &[u8], at: usize, most: usize) -> usize
    ensures { (result ≤ most) × (take result (text_of (drop at a.now)) ≡ take result (text_of (drop at b.now))) }
{
    let mut c = cursor_at(at);
    let mut d = cursor_at(at);
    for n in 0..most {
        let Some((x, after)) = next_byte(a, c) else {
            return n;
        };
        let Some((y, beyond)) = next_byte(b, d) else {
            return n;
        };
        if x != y {
            return n;
        }
        c = after;
        d = beyond;
    }
    most
}

// How many bytes are the same at the front of two texts, both spelled, `most` of them at most.
pub fn shared(a: &[u8], b: &[u8], most: usize) -> usize
    ensures { (result ≤ most) × (take result (text_of a.now) ≡ take result (text_of b.now)) }
{
    for i in 0..most {
        if !same_plain(a, b, i) {
            return i + shared_from(a, b, i, most - i);
        }
    }
    most
}
