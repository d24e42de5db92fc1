// The files of all tables, one table after another: the sheets.
ghost use Rattle.std.specs.Prelude.{◌≡◌};
ghost use Rattle.schema.specs.Tables.{sheet_of};

// How many tables there are, and how many files each has.
const TABLES: u8 = 1;

const FILES: u8 = 8;

// The sheet of a file in a table; 0, which has no lines, of a number that no file has. A number that no table has stands for the first.
// Shut out: a file past the last taken for the first of the next table.
pub fn sheet_of(table: u8, file: u8) -> u8
    ensures { result ≡ sheet_of table file }
{
    if file == 0 || FILES < file {
        return 0;
    }
    if TABLES <= table {
        return file;
    }
    table * FILES + file
}
