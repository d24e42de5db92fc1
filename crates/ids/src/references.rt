// The rules on a field that depend on other fields or files: what it breaks, as a kind, or 0.
ghost use Rattle.std.specs.Prelude.{◌≡◌};
ghost use Rattle.schema.specs.Records.{record_shape};
ghost use Rattle.document.specs.inner.Items.{picked_items};
ghost use Rattle.document.specs.inner.Values.{text_by, there_by};
ghost use Rattle.ids.specs.inner.Ids.{id_field};
ghost use Rattle.word.specs.inner.Listed.{listed};
ghost use Rattle.ids.specs.References.{demanded as demanded_of, refers as refers_to, named as named_by};
ghost use Rattle.ids.specs.inner.Known.{Searchable, test_of};

use crate::Notes;
use crate::lookup::meets;
use document::fields::{STRING, code_of, unquoted};
use word::kind::Kind;

// What a field breaks that is needed: the kind, or 0 where it is given.
pub fn demanded(needed: bool, value: &[u8]) -> u8
    ensures { listed result ≡ demanded_of needed (there_by value.now) }
{
    if needed && value.is_empty() {
        Kind::CONDITION
    } else {
        0
    }
}

// Whether a record of a file that a reference names is of the sort that is asked about there; none is where no reference is given.
fn named(value: &[u8], sheet: u8, p: &[u8], notes: &[u32; Notes::SIZE]) -> bool
    requires { Searchable sheet p.now notes.now }
    ensures { result ≡ named_by (test_of sheet) (id_field sheet) (picked_items (record_shape sheet) p.now) (text_by value.now) }
{
    code_of(value) == STRING && meets(sheet, p, notes, unquoted(value), true)
}

// What a field breaks that is needed where a record which a reference names is of that sort: the kind, or 0. The record is searched for only where the
// field is not given.
pub fn demanded_by(
    reference: &[u8],
    value: &[u8],
    sheet: u8,
    p: &[u8],
    notes: &[u32; Notes::SIZE],
) -> u8
    requires { Searchable sheet p.now notes.now }
    ensures { listed result ≡ demanded_of (named_by (test_of sheet) (id_field sheet) (picked_items (record_shape sheet) p.now)
        (text_by reference.now)) (there_by value.now) }
{
    if 0 < value.len() {
        return 0;
    }
    let needed = named(reference, sheet, p, notes);
    demanded(needed, value)
}

// What a reference breaks that names no record: the kind, or 0.
pub fn refers(value: &[u8], sheet: u8, p: &[u8], notes: &[u32; Notes::SIZE]) -> u8
    requires { Searchable sheet p.now notes.now }
    ensures { listed result ≡ refers_to (text_by value.now) (id_field sheet) (picked_items (record_shape sheet) p.now) }
{
    if code_of(value) == STRING && !meets(sheet, p, notes, unquoted(value), false) {
        Kind::DANGLING
    } else {
        0
    }
}
