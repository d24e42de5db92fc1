// Noting the records of an array.
ghost use Rattle.std.specs.Prelude.{◌≡◌, ◌+◌, ◌≤◌, ◌<◌, length};
ghost use Rattle.limits.specs.Ceilings.{records, file_bytes};
ghost use Rattle.walk.specs.Walk.{items_of};
ghost use Rattle.walk.specs.inner.Along.{AlongItems};
ghost use Rattle.ids.specs.inner.Ids.{AllIdsOnce, record_bytes, first_repeat};
ghost use Rattle.ids.specs.inner.Notes.{size, Next, Noted, Indexed};

use crate::Notes;
use crate::columns::enter;
use crate::id::id_text;
use crate::lookup::passes;
use crate::order::order_notes;
use walk::{Item, item_bytes, pass_item};

// Enters the record m of `p` behind the `n` that are entered.
// Shut out: the text of an id looked for where its record starts.
pub fn note_record(sheet: u8, p: &[u8], m: Item, n: usize, notes: &mut [u32; Notes::SIZE])
    requires { Next sheet p.now n m × Noted sheet p.now n notes.old }
    ensures { Noted sheet p.now (n + 1) notes.new }
{
    let q = item_bytes(p, m);
    let passed = passes(sheet, q);
    let id = id_text(sheet, q);
    match id.text {
        None => enter(notes, n, p.len(), p.len(), 0, passed),
        Some(text) => enter(notes, n, m.value + text, m.value, id.member, passed),
    }
}

// Notes the records of the array `p`; the number of the first record whose id one before it has, or 0.
pub fn note(sheet: u8, p: &[u8], notes: &mut [u32; Notes::SIZE]) -> u16
    requires { (length p.now ≤ file_bytes) × (length (items_of p.now) ≤ records) × ((0 < length p.now) → AlongItems p.now 1) × AllIdsOnce sheet p.now × (length notes.old ≡ size) }
    ensures { (result ≡ first_repeat sheet (record_bytes p.now)) × Indexed sheet p.now notes.new }
{
    let mut n: usize = 0;
    let mut at: usize = 1;
    while let Some(m) = pass_item(p, at) {
        note_record(sheet, p, m, n, notes);
        n += 1;
        at = m.next;
    }
    order_notes(p, n, notes)
}
