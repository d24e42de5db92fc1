// References to the records of a file of a table, whose sheet they are searched for in.
ghost use Rattle.std.specs.Prelude.{◌≡◌};
ghost use Rattle.word.specs.inner.Listed.{listed};
ghost use Rattle.schema.specs.Tables.{sheet_of};
ghost use Rattle.document.specs.inner.Values.{text_by, there_by};
ghost use Rattle.ids.specs.References.{demanded as demanded_of, refers as refers_to, named as named_by};
ghost use Rattle.ids.specs.inner.Known.{Searchable};
ghost use Rattle.cross.specs.inner.Judged.{file_by, id_number, asked_of};

use ids::Notes;
use ids::references::{demanded_by, refers};
use schema::sheets::sheet_of;

// What a reference breaks that names no record of a file: the kind, or 0.
pub fn refers_in(value: &[u8], table: u8, file: u8, p: &[u8], notes: &[u32; Notes::SIZE]) -> u8
    requires { Searchable (sheet_of table file) p.now notes.now }
    ensures { listed result ≡ refers_to (text_by value.now) (id_number file) (file_by (sheet_of table file) p.now).records }
{
    refers(value, sheet_of(table, file), p, notes)
}

// What a field breaks that is needed where a record which a reference names is of the sort that is asked about: the kind, or 0.
pub fn demanded_in(
    reference: &[u8],
    value: &[u8],
    table: u8,
    file: u8,
    p: &[u8],
    notes: &[u32; Notes::SIZE],
) -> u8
    requires { Searchable (sheet_of table file) p.now notes.now }
    ensures { listed result ≡ demanded_of (named_by (asked_of file) (id_number file) (file_by (sheet_of table file) p.now).records
        (text_by reference.now)) (there_by value.now) }
{
    demanded_by(reference, value, sheet_of(table, file), p, notes)
}
