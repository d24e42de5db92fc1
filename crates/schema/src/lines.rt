// The lines of table 2.3, by its bytes.
ghost use Rattle.std.specs.Prelude.{◌≡◌, ◌<◌, length};
ghost use Rattle.schema.specs.Tables.{sheets};
ghost use Rattle.schema.specs.inner.Line.{lines_of, line_at, bytes_of, file_lines};
ghost use Rattle.schema.specs.inner.RecordLines.{record_lines};

use crate::table::{FILE_COUNTS, FILE_FIRSTS, RECORD_COUNTS, RECORD_FIRSTS, TABLE};
use crate::{Line, Range, two_bytes};

// The table, for a walk that takes it once and lends it: a constant is laid out anew wherever it is named.
pub fn table_bytes() -> [u8; Line::TABLE_BYTES]
    ensures { result ≡ bytes_of sheets }
{
    TABLE
}

// The line at a place, counted from 0, by the table that is lent; past the last one a line of zeros.
pub fn line_at(table: &[u8; Line::TABLE_BYTES], i: usize) -> Line
    requires { table.now ≡ bytes_of sheets }
    ensures { result ≡ line_at sheets i }
{
    if Line::COUNT <= i {
        return Line {
            field: 0,
            need: 0,
            value: 0,
            item: 0,
            numbering: 0,
            most: 0,
            inside: 0,
        };
    }
    let at = i * Line::BYTES;
    Line {
        field: table[at],
        need: table[at + 1],
        value: table[at + 2],
        item: table[at + 3],
        numbering: table[at + 4],
        most: two_bytes(table[at + 5], table[at + 6]),
        inside: table[at + 7],
    }
}

// How many lines stand inside a line.
pub fn inside_at(table: &[u8; Line::TABLE_BYTES], i: usize) -> u8
    requires { (table.now ≡ bytes_of sheets) × (i < length (lines_of sheets)) }
    ensures { result ≡ (line_at sheets i).inside }
{
    table[i * Line::BYTES + 7]
}

// The lines of a sheet, by its number from 1 on; none of another number.
pub fn file_lines(sheet: u8) -> Range
    ensures { result ≡ file_lines sheets sheet }
{
    Range::of_columns(&FILE_FIRSTS, &FILE_COUNTS, usize::from(sheet))
}

// The lines of the rows of a sheet's records, by the sheet's number from 1 on; none of another number, or where it has no records.
pub fn record_lines(sheet: u8) -> Range
    ensures { result ≡ record_lines sheets sheet }
{
    Range::of_columns(&RECORD_FIRSTS, &RECORD_COUNTS, usize::from(sheet))
}
