// Values, arrays and objects. `levels` counts the brackets that may still open, one inside another, and falls with each. The table of classes is
// lent to all that a value holds. Ends are handed on by `?` and `Ok`, for the reason beside `SyntaxError`.
ghost use Rattle.std.specs.Prelude.{◌≡◌, drop};
ghost use Rattle.lexeme.specs.Character.{paired};
ghost use Rattle.lexeme.specs.inner.Class.{Classifies};
ghost use Rattle.lexeme.specs.Read.{placed};
ghost use Rattle.lexeme.specs.Strings.{string};
ghost use Rattle.json_text.specs.Text.{expect, bracketed, member, value, text};

use super::element::{Turn, after_element};
use super::strings::{plain_end, read_string};
use lexeme::SyntaxError;
use lexeme::blank::skip_blanks_by;
use lexeme::class::{Class, class_by, class_table};
use lexeme::front::{first, place};
use lexeme::literal::read_literal;
use lexeme::number::read_number;
use word::kind::Kind;

// The value at `at`. The `match` gives its end, and one `Ok` is made of it: with an `Ok` in each arm the bytes that pad a fault's kind are copied for every
// value.
#[cycle(read_array_read_member_read_object_value_by)]
fn value_by(table: &[u8; 256], s: &[u8], at: usize, levels: u8) -> Result<usize, SyntaxError>
    requires { Classifies table.now }
    ensures { result ≡ placed s.now (value paired levels (drop at s.now)) }
{
    let end = match class_by(table, first(s, at)) {
        Class::NUMBER => read_number(s, at)?,
        Class::ARRAY => {
            if levels == 0 {
                return Err(SyntaxError {
                    kind: Kind::TOO_DEEP,
                    offset: at,
                });
            }
            read_array(table, s, at + 1, levels - 1)?
        }
        Class::OBJECT => {
            if levels == 0 {
                return Err(SyntaxError {
                    kind: Kind::TOO_DEEP,
                    offset: at,
                });
            }
            read_object(table, s, at + 1, levels - 1)?
        }
        Class::LETTER_T => read_literal(s, at, b"true")?,
        Class::LETTER_F => read_literal(s, at, b"false")?,
        Class::LETTER_N => read_literal(s, at, b"null")?,
        Class::QUOTE => read_string(table, s, at + 1)?,
        _ => return Err(SyntaxError {
            kind: Kind::NOT_JSON,
            offset: place(s, at),
        }),
    };
    Ok(end)
}

// The array whose bracket stands before `at`.
#[cycle(read_array_read_member_read_object_value_by)]
fn read_array(table: &[u8; 256], s: &[u8], at: usize, levels: u8) -> Result<usize, SyntaxError>
    requires { Classifies table.now }
    ensures { result ≡ placed s.now (bracketed 0x5d (value paired levels) (drop at s.now)) }
{
    let mut i = skip_blanks_by(table, s, at);
    if first(s, i) == b']' {
        return Ok(i + 1);
    }
    loop {
        let element = value_by(table, s, i, levels);
        match after_element(table, s, element, b']')? {
            Turn::Closed(end) => return Ok(end),
            Turn::Next(next) => i = next,
        }
    }
}

// The object whose bracket stands before `at`. It has its own loop, since its elements are read by another function of the cycle.
#[cycle(read_array_read_member_read_object_value_by)]
fn read_object(table: &[u8; 256], s: &[u8], at: usize, levels: u8) -> Result<usize, SyntaxError>
    requires { Classifies table.now }
    ensures { result ≡ placed s.now (bracketed 0x7d (member paired (value paired levels)) (drop at s.now)) }
{
    let mut i = skip_blanks_by(table, s, at);
    if first(s, i) == b'}' {
        return Ok(i + 1);
    }
    loop {
        let element = read_member(table, s, i, levels);
        match after_element(table, s, element, b'}')? {
            Turn::Closed(end) => return Ok(end),
            Turn::Next(next) => i = next,
        }
    }
}

// The member at `at`: its name, a colon, its value. A string or a number, which most values are, is read here, so that `value_by` need not be called.
#[cycle(read_array_read_member_read_object_value_by)]
fn read_member(table: &[u8; 256], s: &[u8], at: usize, levels: u8) -> Result<usize, SyntaxError>
    requires { Classifies table.now }
    ensures { result ≡ placed s.now (member paired (value paired levels) (drop at s.now)) }
{
    let name_end = string_by(table, s, at)?;
    let i = skip_blanks_by(table, s, name_end);
    if first(s, i) != b':' {
        return Err(SyntaxError {
            kind: Kind::NOT_JSON,
            offset: i,
        });
    }
    let value = skip_blanks_by(table, s, i + 1);
    let end = match class_by(table, first(s, value)) {
        Class::QUOTE => string_by(table, s, value)?,
        Class::NUMBER => read_number(s, value)?,
        _ => value_by(table, s, value, levels)?,
    };
    Ok(end)
}

// The string at `at`, from its opening quote on. It is most often plain up to the closing one, and then nothing is called for it.
fn string_by(table: &[u8; 256], s: &[u8], at: usize) -> Result<usize, SyntaxError>
    requires { Classifies table.now }
    ensures { result ≡ placed s.now (expect 0x22 (string paired 0) (drop at s.now)) }
{
    if first(s, at) != b'"' {
        return Err(SyntaxError {
            kind: Kind::NOT_JSON,
            offset: place(s, at),
        });
    }
    let i = plain_end(table, s, at + 1);
    if first(s, i) == b'"' {
        return Ok(i + 1);
    }
    Ok(read_string(table, s, i)?)
}

// The whole text: one value with blanks around it.
pub fn read_text(s: &[u8], levels: u8) -> Result<usize, SyntaxError>
    ensures { result ≡ placed s.now (text paired levels s.now) }
{
    let table = class_table();
    let next = value_by(&table, s, skip_blanks_by(&table, s, 0), levels)?;
    let end = skip_blanks_by(&table, s, next);
    if end < s.len() {
        return Err(SyntaxError {
            kind: Kind::NOT_JSON,
            offset: end,
        });
    }
    Ok(end)
}
