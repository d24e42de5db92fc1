// Numbers, part by part as RFC 8259 spells them. Each function reads what is left of a number from its own part on.
ghost use Rattle.std.specs.Prelude.{◌≡◌, drop};
ghost use Rattle.lexeme.specs.Read.{placed};
ghost use Rattle.lexeme.specs.Numbers.{digits, some_digits, both, integer, fraction, exponent, number};

use super::SyntaxError;
use super::ascii::{is_digit, is_either};
use super::front::{first, place};
use word::kind::Kind;

// Where the digits from `at` on end.
fn digits_end(s: &[u8], at: usize) -> usize
    ensures { Ok result ≡ placed s.now (digits (drop at s.now)) }
{
    for i in at..s.len() {
        if !is_digit(s[i]) {
            return i;
        }
    }
    s.len()
}

// Digits, one at least.
fn read_digits(s: &[u8], at: usize) -> Result<usize, SyntaxError>
    ensures { result ≡ placed s.now (some_digits (drop at s.now)) }
{
    if !is_digit(first(s, at)) {
        return Err(SyntaxError {
            kind: Kind::NOT_JSON,
            offset: place(s, at),
        });
    }
    Ok(digits_end(s, at + 1))
}

fn read_exponent(s: &[u8], at: usize) -> Result<usize, SyntaxError>
    ensures { result ≡ placed s.now (exponent (drop at s.now)) }
{
    if !is_either(first(s, at), b'e', b'E') {
        return Ok(place(s, at));
    }
    let next = at + 1;
    if is_either(first(s, next), b'+', b'-') {
        return read_digits(s, next + 1);
    }
    read_digits(s, next)
}

fn read_fraction(s: &[u8], at: usize) -> Result<usize, SyntaxError>
    ensures { result ≡ placed s.now (both fraction exponent (drop at s.now)) }
{
    if first(s, at) != b'.' {
        return read_exponent(s, at);
    }
    let next = read_digits(s, at + 1)?;
    read_exponent(s, next)
}

// The integer and what follows it. The end of that is handed on by `?` and `Ok`, for the reason beside `SyntaxError`.
// Shut out: a 0 taken together with the byte after it, so that 01 is one number; an integer with no digit.
fn read_integer(s: &[u8], at: usize) -> Result<usize, SyntaxError>
    ensures { result ≡ placed s.now (both integer (both fraction exponent) (drop at s.now)) }
{
    if first(s, at) == b'0' {
        return Ok(read_fraction(s, at + 1)?);
    }
    let next = read_digits(s, at)?;
    Ok(read_fraction(s, next)?)
}

// The number at `at`.
pub fn read_number(s: &[u8], at: usize) -> Result<usize, SyntaxError>
    ensures { result ≡ placed s.now (number (drop at s.now)) }
{
    if first(s, at) == b'-' {
        return read_integer(s, at + 1);
    }
    read_integer(s, at)
}
