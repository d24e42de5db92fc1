// Kind 12 in one file: no two of its records have one id.
ghost use Rattle.std.specs.Prelude.{true, ◌≡◌, length};
ghost use Rattle.json_text.specs.Text.{syntax_of};
ghost use Rattle.schema.specs.Tables.{sheet_shape};
ghost use Rattle.schema.specs.Records.{has_ids};
ghost use Rattle.schema.specs.Pick.{pick};
ghost use Rattle.fault.specs.Fault.{least};
ghost use Rattle.judge.specs.Faults.{file_faults};
ghost use Rattle.ids.specs.inner.Ids.{id_field};
ghost use Rattle.ids.specs.inner.Notes.{size};
ghost use Rattle.clean.specs.Clean.{tree_of, repeats};
ghost use Rattle.clean.specs.inner.Blamed.{blamed};
ghost use Rattle.clean.specs.inner.Noted.{RecordsNoted};

use document::records_from;
use fault::Fault;
use ids::Notes;
use ids::id::id_field;
use ids::note::note;
use word::kind::Kind;

// Notes the records of a file that stages A and B pass and whose records have ids; the number of the first whose id one before it has, or 0.
pub fn note_file(sheet: u8, s: &[u8], notes: &mut [u32; Notes::SIZE]) -> u16
    requires { (has_ids sheet ≡ true) × (syntax_of s.now ≡ Ok tt) × (least (file_faults (sheet_shape sheet) (tree_of s.now)) ≡ None) × (length notes.old ≡ size) }
    ensures { (least (repeats (sheet_shape sheet) (pick (sheet_shape sheet) (tree_of s.now))) ≡ blamed (id_field sheet) result) × RecordsNoted sheet s.now notes.new }
{
    note(sheet, records_from(sheet, s), notes)
}

// The rule that a record breaks whose id one before it has, by its number; none where that is 0, which the notes tell where no id stands twice.
pub fn blame(sheet: u8, repeat: u16) -> Option<Fault>
    ensures { result ≡ blamed (id_field sheet) repeat }
{
    if repeat == 0 {
        None
    } else {
        Some(Fault {
            record: u32::from(repeat),
            field: id_field(sheet),
            sub: 0,
            kind: Kind::ID_TWICE,
        })
    }
}
