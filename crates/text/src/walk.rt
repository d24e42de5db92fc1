// The bytes that a spelled text stands for, one after another.
ghost use Rattle.std.specs.Prelude.{◌≡◌, ◌≤◌, ◌<◌, drop};
ghost use Rattle.lexeme.specs.Character.{bytes_of};
ghost use Rattle.text.specs.Text.{text_of};
ghost use Rattle.text.specs.inner.Walk.{cursor_at, left, told, left_by, told_by, seen, Fronted};

use crate::ascii::{escaped, is_plain};
use crate::{Cursor, Front};
use character::next_char;
use lexeme::{Char, Next};

// The cursor at a place of the spelling where a character begins.
pub fn cursor_at(at: usize) -> Cursor
    ensures { result ≡ cursor_at at }
{
    Cursor {
        begun: Char {
            b0: 0,
            b1: 0,
            b2: 0,
            b3: 0,
            len: 0,
            more: 0,
        },
        at,
    }
}

// The character without its first byte.
fn tail(x: Char) -> Char
    ensures { bytes_of result ≡ drop 1 (bytes_of x) }
{
    Char {
        b0: x.b1,
        b1: x.b2,
        b2: x.b3,
        b3: 0,
        len: x.len.min(4).saturating_sub(1),
        more: x.more,
    }
}

// The first byte of what is spelled from `at` on. Characters of ASCII are told before any others.
fn first_byte(s: &[u8], at: usize) -> Option<(u8, Cursor)>
    ensures { told s.now result ≡ text_of (drop at s.now) }
{
    if s.len() <= at {
        return None;
    }
    if is_plain(s[at]) {
        return Some((s[at], cursor_at(at + 1)));
    }
    if s[at] == b'"' {
        return None;
    }
    let b = escaped(s, at);
    if b < 128 {
        return Some((b, cursor_at(at + 6)));
    }
    let Next::Character(x) = next_char(s, at) else {
        return None;
    };
    Some((
        x.b0,
        Cursor {
            begun: tail(x),
            at: at + 1 + x.more,
        },
    ))
}

// The byte at the cursor.
pub fn next_byte(s: &[u8], c: Cursor) -> Option<(u8, Cursor)>
    ensures { told s.now result ≡ left s.now c }
{
    let x = c.begun;
    if 0 < x.len {
        return Some((
            x.b0,
            Cursor {
                begun: tail(x),
                at: c.at,
            },
        ));
    }
    first_byte(s, c.at)
}

// The byte at the cursor, of a spelling or of raw bytes.
pub fn next_meant(s: &[u8], c: Cursor, raw: bool) -> Option<(u8, Cursor)>
    ensures { told_by raw s.now result ≡ left_by raw s.now c }
{
    if !raw {
        return next_byte(s, c);
    }
    let at = c.at;
    if s.len() <= at {
        return None;
    }
    Some((s[at], cursor_at(at + 1)))
}

// What is seen at a place, with nothing decoded: 0 where the text ends, one more than the byte where that stands for itself, and else 257. As numbers these
// are in the order of the texts, and an enum's would have to be written out.
#[tactic(auto, using(crate::proofs::Seeing::seen_rules))]
pub fn peek(s: &[u8], at: usize, raw: bool) -> u32
    ensures { result ≡ seen raw (drop at s.now) }
{
    if s.len() <= at {
        return 0;
    }
    if raw || is_plain(s[at]) {
        return u32::from(s[at]) + 1;
    }
    if s[at] == b'"' { 0 } else { 257 }
}

// The first `most` bytes from a cursor on; fewer where the text ends before.
// Shut out: a cursor that gives a byte twice.
pub fn read_front(spelled: &[u8], c: Cursor, most: usize) -> Front
    requires { most ≤ 32 }
    ensures { Fronted spelled.now c most result }
{
    let mut bytes: [u8; 32] = [0; 32];
    let mut after = c;
    for count in 0..most {
        let Some((b, next)) = next_byte(spelled, after) else {
            return Front {
                bytes,
                count,
                after,
            };
        };
        bytes[count] = b;
        after = next;
    }
    Front {
        bytes,
        count: most,
        after,
    }
}
