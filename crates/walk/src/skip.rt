// Where a value ends, by its quotation marks and brackets alone. Nothing is checked: of bytes that stage A passed it is where reading ends.
ghost use Rattle.std.specs.Prelude.{false, ◌≡◌, suc, ◌+◌, ◌-◌, ◌≤◌, ltb, length, drop};
ghost use Rattle.walk.specs.inner.Skip.{quoted, outside, enclosed, numbered, skipped};
ghost use Rattle.walk.specs.inner.Mark.{Reaches};

use crate::mark::{before_bracket_mark, before_string_mark};
use lexeme::ascii::is_either;
use lexeme::front::{ahead, first, place};
use lexeme::number::read_number;

// Just past the quotation mark that closes a string, whose text goes on at `at`, byte by byte: the last few of a text.
#[tactic(auto, using(crate::proofs::Ends::escape_falls, crate::proofs::Ends::escape_on))]
fn string_end_bytewise(s: &[u8], at: usize) -> usize
    ensures { result ≡ length s.now - length (quoted false (drop at s.now)) }
{
    let mut i = at;
    while i < s.len() {
        match s[i] {
            b'"' => return i + 1,
            b'\\' => i = ahead(s, i, 2),
            _ => i += 1,
        }
    }
    s.len()
}

// Just past the quotation mark that closes a string, whose text goes on at `at`, eight bytes at once as long as there are eight.
fn string_end_wordwise(s: &[u8], at: usize) -> usize
    ensures { result ≡ length s.now - length (quoted false (drop at s.now)) }
{
    if s.len() < 8 {
        return string_end_bytewise(s, at);
    }
    let last = s.len() - 8;
    let mut i = at;
    while i <= last {
        let n = before_string_mark(s, i);
        if n == 8 {
            i += 8;
            continue;
        }
        let j = i + n;
        if s[j] == b'"' {
            return j + 1;
        }
        i = j + 2;
    }
    string_end_bytewise(s, i)
}

// Do fewer than n bytes stand at `at`?
fn lacks(s: &[u8], at: usize, n: usize) -> bool
    ensures { result ≡ ltb (length s.now) (at + n) }
{
    s.len() < n || s.len() - n < at
}

// Just past the quotation mark that closes a string, whose text goes on at `at`. Most strings are short: where nine bytes hold the mark, no loop is needed,
// and a call would cost as much as the work.
#[inline(always)]
pub fn string_end(s: &[u8], at: usize) -> usize
    ensures { result ≡ length s.now - length (quoted false (drop at s.now)) }
{
    if lacks(s, at, 9) {
        return string_end_wordwise(s, at);
    }
    if s[at] == b'"' {
        return at + 1;
    }
    let j = at + before_string_mark(s, at);
    if s[j] == b'"' {
        return j + 1;
    }
    string_end_wordwise(s, j)
}

// Just past the bracket that closes one which was opened before `at`, where `more` others stand open, byte by byte: the last few of a text.
fn brackets_end_bytewise(s: &[u8], at: usize, more: usize) -> usize
    requires { more ≤ at }
    ensures { result ≡ length s.now - length (enclosed (suc more) outside (drop at s.now)) }
{
    let mut inner = more;
    let mut i = at;
    while i < s.len() {
        match s[i] {
            b'"' => i = string_end(s, i + 1),
            b'[' | b'{' => {
                inner += 1;
                i += 1;
            }
            b']' | b'}' => {
                if inner == 0 {
                    return i + 1;
                }
                inner -= 1;
                i += 1;
            }
            _ => i += 1,
        }
    }
    s.len()
}

// The first place from `at` on, outside strings, of what may be a bracket, eight bytes at once; where fewer are left, a place before it.
fn to_bracket(s: &[u8], at: usize) -> usize
    ensures { Reaches s.now at result }
{
    if s.len() < 8 {
        return at;
    }
    let last = s.len() - 8;
    let mut i = at;
    while i <= last {
        let n = before_bracket_mark(s, i);
        if n == 8 {
            i += 8;
            continue;
        }
        let j = i + n;
        if s[j] != b'"' {
            return j;
        }
        i = string_end(s, j + 1);
    }
    i
}

// Just past the bracket that closes one which was opened before `at`. Brackets often stand side by side, so each is taken by itself.
fn brackets_end(s: &[u8], at: usize) -> usize
    ensures { result ≡ length s.now - length (enclosed 1 outside (drop at s.now)) }
{
    if s.len() < 8 {
        return brackets_end_bytewise(s, at, 0);
    }
    let last = s.len() - 8;
    let mut inner: usize = 0;
    let mut i = at;
    while i <= last {
        let b = s[i];
        if b & 0xd9 != 0x59 {
            i = to_bracket(s, i);
            continue;
        }
        i += 1;
        if is_either(b, b'[', b'{') {
            inner += 1;
            continue;
        }
        if is_either(b, b']', b'}') {
            if inner == 0 {
                return i;
            }
            inner -= 1;
            continue;
        }
    }
    brackets_end_bytewise(s, i, inner)
}

// Just past the number at `at`.
fn number_end(s: &[u8], at: usize) -> usize
    ensures { result ≡ length s.now - length (numbered (drop at s.now)) }
{
    match read_number(s, at) {
        Ok(end) => end,
        Err(_) => place(s, at),
    }
}

// Just past the value at `at`; where none begins there, `at` itself.
pub fn skip_value(s: &[u8], at: usize) -> usize
    ensures { result ≡ length s.now - length (skipped (drop at s.now)) }
{
    match first(s, at) {
        b'"' => string_end(s, at + 1),
        b'[' | b'{' => brackets_end(s, at + 1),
        b'-' | b'0'..=b'9' => number_end(s, at),
        b't' | b'n' => place(s, ahead(s, at, 4)),
        b'f' => place(s, ahead(s, at, 5)),
        _ => place(s, at),
    }
}
