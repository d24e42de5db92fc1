// Records that are entered, put in the order of their ids; and what a record is noted to pass, handed on to all records with its id.
ghost use Rattle.std.specs.Prelude.{◌≡◌, ◌+◌, ◌%◌, ◌≤◌, ◌<◌, length};
ghost use Rattle.limits.specs.Ceilings.{records};
ghost use Rattle.sorting.specs.Ids.{id_at, Ordered};
ghost use Rattle.sorting.specs.Repeats.{same_id};
ghost use Rattle.sorting.specs.inner.Keys.{SameFront, Tells};
ghost use Rattle.ids.specs.inner.Notes.{size};
ghost use Rattle.ids.specs.inner.Spread.{handed, Arranged, Closed, SortedBy, Orders};

use crate::Notes;
use crate::columns::is_passed;
use crate::gather::settle;
use sorting::keys::{common_front, fill_keys};
use sorting::repeat::{first_repeat, same_id};
use sorting::sort::sort;

// The records by their ids, as many as `order` has room for, with the keys of the ids; the number of the first that repeats an id, counted from 1, or 0.
fn arrange(
    p: &[u8],
    notes: &[u32; Notes::SIZE],
    front: usize,
    keys: &mut [u32],
    order: &mut [u16],
    spare: &mut [u16],
) -> usize
    requires { (length keys.old ≡ length order.old) × (length spare.old ≡ length order.old) × (length order.old ≤ records)
        × SameFront (id_at p.now notes.now) (length order.old) front }
    ensures { Arranged p.now notes.now (length order.old) front keys.new order.new result }
{
    fill_keys(p, notes, front, keys);
    sort(p, notes, keys, order, spare);
    first_repeat(p, notes, keys, order)
}

// Whether two records have the same id.
fn is_same(p: &[u8], notes: &[u32; Notes::SIZE], keys: &[u32], i: u16, j: u16) -> bool
    requires { Tells p.now notes.now keys.now }
    ensures { result ≡ same_id (id_at p.now notes.now) i j }
{
    same_id(p, notes, keys, i, j)
}

// What is noted of a record that does not pass, with the mark that it does.
fn marked(x: u32) -> u32
    requires { x % 2 ≡ 0 }
    ensures { result ≡ x + 1 }
{
    x + 1
}

// Notes that the record `to` passes where `from` does and has the same id.
fn hand_on(p: &[u8], notes: &mut [u32; Notes::SIZE], keys: &[u32], from: u16, to: u16)
    requires { (from < records) × (to < records) × Tells p.now notes.old keys.now }
    ensures { notes.new ≡ handed (id_at p.now notes.old) notes.old from to }
{
    if is_passed(notes, from as usize)
        && !is_passed(notes, to as usize)
        && is_same(p, notes, keys, from, to)
    {
        let at = Notes::MEMBERS + to as usize;
        notes[at] = marked(notes[at]);
    }
}

// Hands on what records are noted to pass to those with the same id: to the next in the order, from the first on, and then back.
// Shut out: a record that does not pass, met in the place of one with its id that does.
fn spread(p: &[u8], keys: &[u32], order: &[u16], notes: &mut [u32; Notes::SIZE])
    requires { (length order.now ≤ records) × (length keys.now ≡ length order.now) × (length notes.old ≡ size)
        × Ordered (id_at p.now notes.old) order.now × Tells p.now notes.old keys.now }
    ensures { Closed p.now order.now notes.old notes.new }
{
    for i in 1..order.len() {
        hand_on(p, notes, keys, order[i - 1], order[i]);
    }
    for j in (1..order.len()).rev() {
        hand_on(p, notes, keys, order[j], order[j - 1]);
    }
}

// Puts the records that are entered in order, as many as `order` has room for.
fn order_by(
    p: &[u8],
    notes: &mut [u32; Notes::SIZE],
    keys: &mut [u32],
    order: &mut [u16],
    spare: &mut [u16],
) -> usize
    requires { (length keys.old ≡ length order.old) × (length spare.old ≡ length order.old) × (length order.old ≤ records) × (length notes.old ≡ size) }
    ensures { SortedBy p.now (length order.old) notes.old notes.new result }
{
    let front = common_front(p, notes, order.len());
    let first = arrange(p, notes, front, keys, order, spare);
    spread(p, keys, order, notes);
    settle(order, keys, front, notes);
    first
}

// Puts the n records that are entered in order; the number of the first whose id one before it has, or 0.
pub fn order_notes(p: &[u8], n: usize, notes: &mut [u32; Notes::SIZE]) -> u16
    requires { (n ≤ records) × (length notes.old ≡ size) }
    ensures { Orders p.now n notes.old notes.new result }
{
    let mut keys: [u32; Notes::ENTRIES] = [0; Notes::ENTRIES];
    let mut order: [u16; Notes::ENTRIES] = [0; Notes::ENTRIES];
    let mut spare: [u16; Notes::ENTRIES] = [0; Notes::ENTRIES];
    order_by(p, notes, &mut keys[..n], &mut order[..n], &mut spare[..n]) as u16
}
