// The names of the lines. Each has a number, and stands once in the table; a text's number is found by a place that a few of its bytes give.
ghost use Rattle.std.specs.Prelude.{◌≡◌, ◌<◌, eqb, length, get_or};
ghost use Rattle.text.specs.Text.{text_of};
ghost use Rattle.schema.specs.Tables.{sheets};
ghost use Rattle.schema.specs.inner.Names.{name_by, place_count, place_of, places_of};
ghost use Rattle.schema.specs.inner.Line.{lines_of, bytes_of, name_at, each_name, number_of, number_at, name_range_by};

use crate::spelling::read_prefix;
use crate::{Line, Range, two_bytes};
use text::compare::same_bytes;

// The number of a line's name, in the table that is lent; 0 past the last line.
fn number_at(table: &[u8; Line::TABLE_BYTES], i: usize) -> u8
    requires { table.now ≡ bytes_of sheets }
    ensures { result ≡ number_at sheets i }
{
    if Line::COUNT <= i {
        return 0;
    }
    table[i * Line::BYTES + 8]
}

// Where the name of a number stands.
fn range_of(table: &[u8; Line::TABLE_BYTES], number: u8) -> Range
    requires { table.now ≡ bytes_of sheets }
    ensures { result ≡ name_range_by sheets number }
{
    let n = usize::from(number);
    if Line::NAMES < n {
        return Range { first: 0, count: 0 };
    }
    let at = Line::RANGES + n * 3;
    Range {
        first: usize::from(two_bytes(table[at], table[at + 1])),
        count: usize::from(table[at + 2]),
    }
}

// The name of a number; no bytes where none has it.
fn name_by<'t>(table: &'t [u8; Line::TABLE_BYTES], number: u8) -> &'t [u8]
    requires { table.now ≡ bytes_of sheets }
    ensures { result.now ≡ name_by (each_name sheets) number }
{
    let name = range_of(table, number);
    &table[name.first..name.first + name.count]
}

// The name of a line, as it stands in the table that is lent; no bytes past the last line.
pub fn name_in<'t>(table: &'t [u8; Line::TABLE_BYTES], i: usize) -> &'t [u8]
    requires { table.now ≡ bytes_of sheets }
    ensures { result.now ≡ name_at sheets i }
{
    name_by(table, number_at(table, i))
}

// The name of a line has this number.
pub fn has_name(table: &[u8; Line::TABLE_BYTES], i: usize, number: u8) -> bool
    requires { (table.now ≡ bytes_of sheets) × (i < length (lines_of sheets)) }
    ensures { result ≡ eqb (number_at sheets i) number }
{
    table[i * Line::BYTES + 8] == number
}

// The number at a place.
fn placed_at(table: &[u8; Line::TABLE_BYTES], place: usize) -> u8
    requires { (table.now ≡ bytes_of sheets) × (place < place_count) }
    ensures { result ≡ get_or (places_of (each_name sheets)) place 0 }
{
    table[Line::PLACES + place]
}

// The place of a name that has 1 to 31 bytes.
fn place_of(x: &[u8]) -> usize
    requires { (0 < length x.now) × (length x.now < 32) }
    ensures { (result ≡ place_of x.now) × (result < place_count) }
{
    let n = x.len();
    (n * Line::LENGTH_WEIGHT
        + usize::from(x[(n + 2) / 4]) * Line::EARLY_WEIGHT
        + usize::from(x[n / 2]) * Line::MIDDLE_WEIGHT
        + usize::from(x[3 * n / 4]) * Line::LATE_WEIGHT)
        % Line::PLACE_COUNT
}

// The number of the name that these bytes are; 0 where they are none. What is at their place is compared with them once.
// Shut out: other bytes that have a name's place taken for the name.
fn number_in(table: &[u8; Line::TABLE_BYTES], x: &[u8]) -> u8
    requires { table.now ≡ bytes_of sheets }
    ensures { result ≡ number_of sheets x.now }
{
    if x.is_empty() || 32 <= x.len() {
        return 0;
    }
    let number = placed_at(table, place_of(x));
    let name = name_by(table, number);
    if !same_bytes(name, x) {
        return 0;
    }
    number
}

// The number of the name that a text is; 0 where it is none. Most names are spelled as they are; any other spelling is decoded, as far as a name can reach.
pub fn name_number(table: &[u8; Line::TABLE_BYTES], spelled: &[u8]) -> u8
    requires { table.now ≡ bytes_of sheets }
    ensures { result ≡ number_of sheets (text_of spelled.now) }
{
    let number = number_in(table, spelled);
    if 0 < number {
        return number;
    }
    let read = read_prefix(spelled);
    number_in(table, &read.bytes[..read.count])
}
