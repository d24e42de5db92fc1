// The search for the record of an id.
ghost use Rattle.std.specs.Prelude.{◌≡◌, ◌<◌, length};
ghost use Rattle.text.specs.Text.{meant};
ghost use Rattle.sorting.specs.inner.Halves.{found_by};
ghost use Rattle.walk.specs.Walk.{items_of};
ghost use Rattle.ids.specs.inner.Notes.{Indexed};
ghost use Rattle.ids.specs.inner.Known.{probe, Searchable, RecordOf};

use crate::Notes;
use crate::columns::{count, key_at, member_at, record_from, skip, start_at};
use crate::id::names_id;
use document::fields::unquoted;
use sorting::Lookup;
use std::cmp::Ordering;
use text::key::key_of;
use text::ordering::order_of;
use walk::{cut, pass_member};

// A record of the array `p` that has the id, by its place in the order of ids, counted from 1; 0 where none has it. The id is spelled as in a file, or raw. The
// search goes by halves over the records in order: the key of the one in the middle tells in which half to go on. Where it is the key of the id, the search
// goes over the members of that record, from the one that was noted on, and is left where the id is met. A record without an id comes before all others.
// Shut out: a read that is not counted.
pub fn search(sheet: u8, p: &[u8], notes: &[u32; Notes::SIZE], id: &[u8], raw: bool) -> Lookup
    requires { Indexed sheet p.now notes.now × (0 < length (meant raw id.now)) }
    ensures { result ≡ found_by (probe sheet p.now notes.now (meant raw id.now)) 14 0 (length (items_of p.now)) }
{
    let wanted = key_of(id, skip(notes), raw);
    let mut met: usize = 0;
    let mut left: u8 = 14;
    let mut lo: usize = 0;
    let mut hi = count(notes);
    'search: while lo < hi {
        let middle = lo + (hi - lo) / 2;
        let key = key_at(notes, middle);
        left -= 1;
        if key < wanted {
            lo = middle + 1;
            continue;
        }
        if wanted < key {
            hi = middle;
            continue;
        }
        let record = record_from(p, notes, middle);
        let mut at = member_at(notes, middle);
        while let Some(m) = pass_member(record, at) {
            let name = cut(record, m.name, m.name_end);
            if names_id(sheet, name) {
                let value = cut(record, m.value, m.value_end);
                match order_of(unquoted(value), id, raw) {
                    Ordering::Less => {
                        lo = middle + 1;
                        continue 'search;
                    }
                    Ordering::Greater => {
                        hi = middle;
                        continue 'search;
                    }
                    Ordering::Equal => {
                        met = middle + 1;
                        break 'search;
                    }
                }
            }
            at = m.next;
        }
        lo = middle + 1;
    }
    Lookup { met, left }
}

// Where the record of the array `p` starts that has the id, which is no spelling but its bytes. An id of no bytes is none.
// Shut out: a record found by an id that it spells as asked and that decodes to another.
pub fn find_record(sheet: u8, p: &[u8], notes: &[u32; Notes::SIZE], id: &[u8]) -> Option<usize>
    requires { Searchable sheet p.now notes.now }
    ensures { RecordOf sheet p.now id.now result }
{
    if id.is_empty() {
        return None;
    }
    let found = search(sheet, p, notes, id, true);
    if found.met == 0 {
        return None;
    }
    Some(start_at(notes, found.met - 1))
}
