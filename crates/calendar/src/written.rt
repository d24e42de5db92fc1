// Dates as texts spell them.
ghost use Rattle.std.specs.Prelude.{true, ◌≡◌, take, drop};
ghost use Rattle.std.specs.List.{list_all, zip};
ghost use Rattle.notation.specs.Ascii.{bytes};
ghost use Rattle.text.specs.Text.{text_of};
ghost use Rattle.decimal.specs.Decimals.{value_of};
ghost use Rattle.calendar.specs.Written.{admits, admitted, has_form, date_form, date_in, is_date};

use crate::Date;
use text::walk::{cursor_at, read_front};

// A form's byte admits a byte: 0 any digit, every other one itself.
fn is_admitted(form: u8, b: u8) -> bool
    ensures { result ≡ admits form b }
{
    if form == b'0' {
        b.is_ascii_digit()
    } else {
        b == form
    }
}

// Every byte that stands beside one of the form is admitted by it.
fn all_admitted(form: &[u8], s: &[u8]) -> bool
    ensures { result ≡ list_all admitted (zip form.now s.now) }
{
    form.iter().zip(s).all(|(f, b)| is_admitted(*f, *b))
}

// The bytes are of a form.
fn has_form(form: &[u8], s: &[u8]) -> bool
    ensures { result ≡ has_form form.now s.now }
{
    form.len() == s.len() && all_admitted(form, s)
}

// The number that two digits at a place spell.
fn two_digits(s: &[u8], at: usize) -> u8
    requires { has_form (bytes "00") (take 2 (drop at s.now)) ≡ true }
    ensures { result ≡ value_of (take 2 (drop at s.now)) }
{
    (s[at] - b'0') * 10 + (s[at + 1] - b'0')
}

// The date that bytes of the form spell.
fn date_in(s: &[u8]) -> Date
    requires { has_form date_form s.now ≡ true }
    ensures { result ≡ date_in s.now }
{
    Date {
        year: u16::from(two_digits(s, 0)) * 100 + u16::from(two_digits(s, 2)),
        month: two_digits(s, 5),
        day: two_digits(s, 8),
    }
}

// The text is a real date, YYYY-MM-DD. One byte more than the form has is read, so that a longer text is none.
// Shut out: a date with more behind it.
pub fn is_date(spelled: &[u8]) -> bool
    ensures { result ≡ is_date (text_of spelled.now) }
{
    let front = read_front(spelled, cursor_at(0), 11);
    let s = &front.bytes[..front.count];
    has_form(b"0000-00-00", s) && date_in(s).is_real()
}
