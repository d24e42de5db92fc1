// The id of a record.
ghost use Rattle.std.specs.Prelude.{ℕ, ◌≡◌, ◌≤◌, ◌<◌, length, Some};
ghost use Rattle.limits.specs.Ceilings.{file_bytes};
ghost use Rattle.text.specs.Text.{text_of, same};
ghost use Rattle.slots.specs.declared.Found.TheVariants.{Once};
ghost use Rattle.document.specs.inner.Values.{found_bytes, FoundWhole, text_by};
ghost use Rattle.ids.specs.inner.Ids.{id_field, id_name, TextPlace, IdTold};

use crate::IdText;
use document::fields::{STRING, code_of, value_at};
use slots::Found;
use text::compare::text_is;
use walk::{cut, pass_member};

// The field of a file's own ids; 0 where its records have none.
// Shut out: plans whose ids are not looked at; a region that repeats an id blamed on another field.
pub fn id_field(sheet: u8) -> u8
    ensures { result ≡ id_field sheet }
{
    match sheet {
        8 => 100,
        0..=5 => sheet * 10,
        _ => 0,
    }
}

// Whether a name is that of a file's own ids; no bytes are, where its records have none.
pub fn names_id(sheet: u8, spelled: &[u8]) -> bool
    ensures { result ≡ same (text_of spelled.now) (id_name sheet) }
{
    match sheet {
        1 => text_is(spelled, b"vehicle_type_id"),
        2 => text_is(spelled, b"station_id"),
        3 => text_is(spelled, b"station_id"),
        4 => text_is(spelled, b"bike_id"),
        5 => text_is(spelled, b"plan_id"),
        8 => text_is(spelled, b"region_id"),
        _ => text_is(spelled, b""),
    }
}

// Where the text begins that stands in `q` from one place up to another; none where no text stands there, or one with nothing in it.
fn text_from(q: &[u8], from: usize, upto: usize) -> Option<usize>
    requires { (length q.now ≤ file_bytes) × (from < upto) × (upto ≤ length q.now) }
    ensures { ((at : ℕ) → result ≡ Some at → at ≤ length q.now) × (FoundWhole q.now (Once from upto) → TextPlace q.now (text_by (found_bytes q.now (Once from upto))) result) }
{
    if code_of(value_at(q, Found::Once(from, upto))) != STRING {
        return None;
    }
    Some(from + 1)
}

// Where the id of the record `q` is: its members are passed over up to the one that has the name of the file's ids.
pub fn id_text(sheet: u8, q: &[u8]) -> IdText
    requires { length q.now ≤ file_bytes }
    ensures { IdTold sheet q.now result }
{
    let mut at: usize = 1;
    while let Some(m) = pass_member(q, at) {
        if names_id(sheet, cut(q, m.name, m.name_end)) {
            let text = text_from(q, m.value, m.value_end);
            return IdText { member: at, text };
        }
        at = m.next;
    }
    IdText {
        member: at,
        text: None,
    }
}
