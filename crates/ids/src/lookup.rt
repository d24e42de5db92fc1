// The search for the record that a reference names.
ghost use Rattle.std.specs.Prelude.{◌≡◌};
ghost use Rattle.text.specs.Text.{text_of};
ghost use Rattle.walk.specs.Part.{Whole, part_tree};
ghost use Rattle.schema.specs.Records.{record_shape};
ghost use Rattle.document.specs.inner.Items.{picked_items};
ghost use Rattle.document.specs.inner.Values.{text_by};
ghost use Rattle.ids.specs.inner.Ids.{id_field, passing};
ghost use Rattle.ids.specs.References.{any_with, not_human};
ghost use Rattle.ids.specs.inner.Known.{Searchable, tested_of};

use crate::Notes;
use crate::columns::is_passed;
use crate::search::search;
use document::fields::{STRING, code_of, member, unquoted};
use text::compare::{text_is, word_is};

// Whether no human drives, by the value of field 12.
pub fn is_motorized(value: &[u8]) -> bool
    ensures { result ≡ not_human (text_by value.now) }
{
    code_of(value) != STRING || !word_is(unquoted(value), b"human")
}

// Whether the record `q` is of the sort that its file's references are asked about: a type whose propulsion is not human, a station with a capacity.
pub fn passes(sheet: u8, q: &[u8]) -> bool
    requires { Whole q.now (part_tree q.now) }
    ensures { result ≡ passing sheet q.now }
{
    match sheet {
        1 => is_motorized(member(q, b"propulsion_type")),
        2 => 0 < member(q, b"capacity").len(),
        _ => true,
    }
}

// Whether a record of the array `p` has the id, and one with it passes where that is asked. An id of no bytes is none.
// Shut out: that a record passes asked where it is not, and not asked where it is.
pub fn meets(sheet: u8, p: &[u8], notes: &[u32; Notes::SIZE], id: &[u8], tested: bool) -> bool
    requires { Searchable sheet p.now notes.now }
    ensures { result ≡ any_with (tested_of sheet tested) (id_field sheet) (picked_items (record_shape sheet) p.now) (text_of id.now) }
{
    if text_is(id, b"") {
        return false;
    }
    let found = search(sheet, p, notes, id, false);
    if found.met == 0 {
        return false;
    }
    !tested || is_passed(notes, found.met - 1)
}
