// Texts against each other.
ghost use Rattle.std.specs.Prelude.{◌≡◌, [], eqb, ◌+◌, ◌^◌, ◌≤◌, ◌<◌, length, drop};
ghost use Rattle.text.specs.Text.{text_of, same, same_word};
ghost use Rattle.text.specs.inner.Packed.{four, eight, SameAt};
ghost use Rattle.text.specs.inner.Walk.{agreeing, cased, left};

use crate::Cursor;
use crate::ascii::{is_plain, lower};
use crate::walk::{cursor_at, next_byte};

// The same byte; or, where case is folded, the same letter.
fn alike(fold: bool, a: u8, b: u8) -> bool
    ensures { result ≡ eqb (cased fold a) (cased fold b) }
{
    if fold { lower(a) == lower(b) } else { a == b }
}

// No byte is left at the cursor.
fn ended(s: &[u8], c: Cursor) -> bool
    ensures { result ≡ same (left s.now c) [] }
{
    next_byte(s, c).is_none()
}

// What is spelled from `from` on stands for the plain bytes from there on.
fn agrees(spelled: &[u8], plain: &[u8], from: usize, fold: bool) -> bool
    ensures { result ≡ agreeing fold (text_of (drop from spelled.now)) (drop from plain.now) }
{
    let mut c = cursor_at(from);
    for j in from..plain.len() {
        let Some((b, after)) = next_byte(spelled, c) else {
            return false;
        };
        if !alike(fold, b, plain[j]) {
            return false;
        }
        c = after;
    }
    ended(spelled, c)
}

// The text is the plain bytes, with case folded or not. It is not where they are more than its spelling has; and as long as its bytes stand for themselves they are compared as they are.
fn reads_as(spelled: &[u8], plain: &[u8], fold: bool) -> bool
    ensures { result ≡ agreeing fold (text_of spelled.now) plain.now }
{
    if spelled.len() < plain.len() {
        return false;
    }
    for (i, b) in spelled.iter().enumerate() {
        if !is_plain(*b) {
            return agrees(spelled, plain, i, fold);
        }
        if plain.len() <= i || !alike(fold, *b, plain[i]) {
            return false;
        }
    }
    true
}

// The text is the plain bytes.
pub fn text_is(spelled: &[u8], plain: &[u8]) -> bool
    ensures { result ≡ same (text_of spelled.now) plain.now }
{
    reads_as(spelled, plain, false)
}

// The text is the plain bytes, whatever the case of ASCII letters.
pub fn word_is(spelled: &[u8], plain: &[u8]) -> bool
    ensures { result ≡ same_word (text_of spelled.now) plain.now }
{
    reads_as(spelled, plain, true)
}

// The four bytes at `at` as one number.
fn four_at(s: &[u8], at: usize) -> u64
    requires { at + 4 ≤ length s.now }
    ensures { (result ≡ four s.now at) × (result < 2 ^ 32) }
{
    u64::from(s[at])
        + u64::from(s[at + 1]) * 256
        + u64::from(s[at + 2]) * 65536
        + u64::from(s[at + 3]) * 16777216
}

// The eight bytes at `at` as one number. The compiler makes one load of these sums.
fn eight_at(s: &[u8], at: usize) -> u64
    requires { at + 8 ≤ length s.now }
    ensures { result ≡ eight s.now at }
{
    four_at(s, at) + four_at(s, at + 4) * 4294967296
}

// Four bytes are the same in both.
fn same_four(a: &[u8], b: &[u8], at: usize) -> bool
    requires { (at + 4 ≤ length a.now) × (at + 4 ≤ length b.now) }
    ensures { SameAt 4 at a.now b.now result }
{
    four_at(a, at) == four_at(b, at)
}

// Eight bytes are the same in both.
fn same_eight(a: &[u8], b: &[u8], at: usize) -> bool
    requires { (at + 8 ≤ length a.now) × (at + 8 ≤ length b.now) }
    ensures { SameAt 8 at a.now b.now result }
{
    eight_at(a, at) == eight_at(b, at)
}

// The same, of fewer than eight bytes: the first four and the last four have them all.
fn same_few(a: &[u8], b: &[u8]) -> bool
    requires { (length a.now ≡ length b.now) × (length a.now < 8) }
    ensures { result ≡ same a.now b.now }
{
    if a.len() < 4 {
        return a == b;
    }
    same_four(a, b, 0) && same_four(a, b, a.len() - 4)
}

// The bytes of two spellings are the same. Eight at once; the last eight overlap with those before them.
pub fn same_bytes(a: &[u8], b: &[u8]) -> bool
    ensures { result ≡ same a.now b.now }
{
    if a.len() != b.len() {
        return false;
    }
    if a.len() < 8 {
        return same_few(a, b);
    }
    let last = a.len() - 8;
    let mut i: usize = 0;
    while i < last {
        if !same_eight(a, b, i) {
            return false;
        }
        i += 8;
    }
    same_eight(a, b, last)
}
