// Keys of texts.
ghost use Rattle.std.specs.Prelude.{◌≡◌, [], drop};
ghost use Rattle.text.specs.Text.{meant};
ghost use Rattle.text.specs.inner.Key.{key_by, key_of, Room};
ghost use Rattle.text.specs.inner.Walk.{left};

use crate::Cursor;
use crate::walk::{cursor_at, next_byte, peek};

// The key with n zeros behind it.
fn padded(key: u32, n: u8) -> u32
    requires { Room n key }
    ensures { result ≡ key_by n key [] }
{
    let mut whole = key;
    for _ in 0..n {
        whole *= 256;
    }
    whole
}

// The key with the next n bytes behind it, from a cursor on.
fn key_left(s: &[u8], c: Cursor, key: u32, n: u8) -> u32
    requires { Room n key }
    ensures { result ≡ key_by n key (left s.now c) }
{
    let mut after = c;
    let mut whole = key;
    for k in 0..n {
        let Some((b, next)) = next_byte(s, after) else {
            return padded(whole, n - k);
        };
        whole = whole * 256 + u32::from(b);
        after = next;
    }
    whole
}

// The key of what follows `skip` bytes from a cursor on.
fn key_behind(s: &[u8], c: Cursor, skip: usize) -> u32
    ensures { result ≡ key_of (drop skip (left s.now c)) }
{
    let mut after = c;
    for _ in 0..skip {
        let Some((_, next)) = next_byte(s, after) else {
            return 0;
        };
        after = next;
    }
    key_left(s, after, 0, 4)
}

// The key of what stands from a place on.
fn key_at(s: &[u8], at: usize, raw: bool) -> u32
    ensures { result ≡ key_of (meant raw (drop at s.now)) }
{
    let mut i = at;
    let mut whole: u32 = 0;
    for k in 0..4u8 {
        let b = peek(s, i, raw);
        if b < 1 {
            return padded(whole, 4 - k);
        }
        if 256 < b {
            return key_left(s, cursor_at(i), whole, 4 - k);
        }
        whole = whole * 256 + (b - 1);
        i += 1;
    }
    whole
}

// The key of a text behind its first `skip` bytes. Bytes that stand for themselves are taken as they are, and the rest is decoded from the first other one on.
// Shut out: a front that is passed over only in part where an escape stands in it.
pub fn key_of(s: &[u8], skip: usize, raw: bool) -> u32
    ensures { result ≡ key_of (drop skip (meant raw s.now)) }
{
    for i in 0..skip {
        let b = peek(s, i, raw);
        if b < 1 {
            return 0;
        }
        if 256 < b {
            return key_behind(s, cursor_at(i), skip - i);
        }
    }
    key_at(s, skip, raw)
}
