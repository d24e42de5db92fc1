// Characters of a spelled text as numbers, so that two are compared at once and nothing goes through memory. A 0 is no character: with an Option, one
// comparison of two numbers would no longer tell both that there are characters and that they are the same.
ghost use Rattle.std.specs.Prelude.{true, ◌≡◌, ◌+◌, ◌≤◌, ◌<◌, length, get_or};
ghost use Rattle.lexeme.specs.Character.{encoded};
ghost use Rattle.text.specs.inner.Code.{char_of, width_of, Packs, Coded, CodedAs, SameCodes, SameRun, SharedAt};

use crate::ascii::{escaped, is_plain};
use character::escape::short;
use character::hex::quad;
use character::next_char;
use character::wide::{tail_byte, wide_length};
use lexeme::Next;
use lexeme::front::{ahead, byte_at};

// The number of a character; 0 where it would have more than four bytes, or a spelling of more than twelve.
fn pack(b0: u8, b1: u8, b2: u8, b3: u8, len: usize, more: usize) -> u64
    ensures { 0 < result → Packs (char_of b0 b1 b2 b3 len more) result }
{
    if 4 < len || 11 < more {
        return 0;
    }
    let bytes = u64::from(b0)
        + u64::from(b1) * 0x100
        + u64::from(b2) * 0x1_0000
        + u64::from(b3) * 0x100_0000;
    bytes + len as u64 * 0x1_0000_0000 + (more as u64 + 1) * 0x100_0000_0000
}

// A character past ASCII that stands for itself, by its first byte b.
fn wide_code(s: &[u8], at: usize, b: u8) -> u64
    requires { (at < length s.now) × (b ≡ get_or s.now at 0) }
    ensures { 0 < result → Coded s.now at result }
{
    let Some(n) = wide_length(s, at, b) else {
        return 0;
    };
    pack(
        b,
        byte_at(s, at, 1),
        tail_byte(s, at, n, 2),
        tail_byte(s, at, n, 3),
        n,
        n - 1,
    )
}

// Any character, by way of all that it is.
fn char_code(s: &[u8], at: usize) -> u64
    requires { at < length s.now }
    ensures { 0 < result → Coded s.now at result }
{
    let Next::Character(x) = next_char(s, at) else {
        return 0;
    };
    pack(x.b0, x.b1, x.b2, x.b3, x.len, x.more)
}

// The number of the character that an escape \u of the value v stands for, which is no surrogate.
fn unit_code(v: u32) -> u64
    requires { v < 0x10000 }
    ensures { 0 < result → CodedAs (encoded v 5) result }
{
    if v < 0x80 {
        return pack(v as u8, 0, 0, 0, 1, 5);
    }
    if v < 0x800 {
        return pack((0xc0 + v / 64) as u8, (0x80 + v % 64) as u8, 0, 0, 2, 5);
    }
    pack(
        (0xe0 + v / 4096) as u8,
        (0x80 + v / 64 % 64) as u8,
        (0x80 + v % 64) as u8,
        0,
        3,
        5,
    )
}

// An escape \u, its backslash at `at`; 0 of any other escape. Surrogates are rare.
fn unicode_code(s: &[u8], at: usize) -> u64
    requires { (at < length s.now) × (get_or s.now at 0 ≡ 0x5c) }
    ensures { 0 < result → Coded s.now at result }
{
    if byte_at(s, at, 1) != b'u' {
        return 0;
    }
    let Ok(v) = quad(s, ahead(s, at, 2)) else {
        return 0;
    };
    match v {
        0xd800..=0xdfff => char_code(s, at),
        _ => unit_code(v),
    }
}

// An escape of ASCII, its backslash at `at`: by six bytes or by two.
fn escape_code(s: &[u8], at: usize) -> u64
    requires { (at < length s.now) × (get_or s.now at 0 ≡ 0x5c) }
    ensures { 0 < result → Coded s.now at result }
{
    let b = escaped(s, at);
    if b < 128 {
        return pack(b, 0, 0, 0, 1, 5);
    }
    let Some(c) = short(byte_at(s, at, 1)) else {
        return 0;
    };
    pack(c, 0, 0, 0, 1, 1)
}

// The character of ASCII at a place; 0 where there is none. It calls nothing that takes long, so that no registers are kept for that.
pub fn ascii_at(s: &[u8], at: usize) -> u64
    ensures { 0 < result → Coded s.now at result }
{
    if s.len() <= at {
        return 0;
    }
    if s[at] == b'\\' {
        return escape_code(s, at);
    }
    if is_plain(s[at]) {
        return pack(s[at], 0, 0, 0, 1, 0);
    }
    0
}

// The character at a place, spelled by an escape \u or past ASCII as it stands; 0 where there is none.
pub fn code_at(s: &[u8], at: usize) -> u64
    ensures { 0 < result → Coded s.now at result }
{
    if s.len() <= at {
        return 0;
    }
    if s[at] == b'\\' {
        return unicode_code(s, at);
    }
    wide_code(s, at, s[at])
}

// Whether two codes are of one character, however each is spelled.
pub fn same_code(x: u64, y: u64) -> bool
    ensures { result ≡ true → SameCodes x y }
{
    x != 0 && x % 0x100_0000_0000 == y % 0x100_0000_0000
}

// How many bytes the spelling of a character has.
pub fn width(x: u64) -> usize
    ensures { result ≡ width_of x }
{
    (x / 0x100_0000_0000) as usize
}

// Whether n bytes are the same from a place of each on.
fn same_run(a: &[u8], b: &[u8], i: usize, j: usize, n: usize) -> bool
    requires { i + n ≤ length a.now }
    ensures { result ≡ true → SameRun a.now b.now i j n }
{
    if b.len() <= j || b.len() - j < n {
        return false;
    }
    for k in 0..n {
        if a[i + k] != b[j + k] {
            return false;
        }
    }
    true
}

// How many bytes a character past ASCII has that stands for itself at a place of each; 0 where there is none. It is told in the first alone.
pub fn same_wide(a: &[u8], b: &[u8], i: usize, j: usize) -> usize
    ensures { 0 < result → SharedAt a.now b.now i j result }
{
    if a.len() <= i {
        return 0;
    }
    let Some(n) = wide_length(a, i, a[i]) else {
        return 0;
    };
    if same_run(a, b, i, j, n) { n } else { 0 }
}
