// Columns of notes, put in an order of the records.
ghost use Rattle.std.specs.Prelude.{◌≡◌, ◌+◌, ◌≤◌, length, get_or};
ghost use Rattle.limits.specs.Ceilings.{records};
ghost use Rattle.ids.specs.inner.Notes.{size};
ghost use Rattle.ids.specs.inner.Gather.{Listing, Column, Written, Gathered, Settled};

use crate::Notes;

// Writes over the first column what another has of the records in order.
fn take_column(order: &[u16], column: usize, notes: &mut [u32; Notes::SIZE])
    requires { Listing order.now × Column column × (length notes.old ≡ size) }
    ensures { Written 0 (length order.now) (λ i. get_or notes.old (column + get_or order.now i 0) 0) notes.old notes.new }
{
    for (i, &k) in order.iter().enumerate() {
        notes[i] = notes[column + usize::from(k)];
    }
}

// Writes the first n numbers of the first column over those of another.
fn put_back(n: usize, column: usize, notes: &mut [u32; Notes::SIZE])
    requires { (n ≤ records) × Column column × (length notes.old ≡ size) }
    ensures { Written column n (λ i. get_or notes.old i 0) notes.old notes.new }
{
    for i in 0..n {
        notes[column + i] = notes[i];
    }
}

// Puts a column in order. What the first one had is lost.
fn gather(order: &[u16], column: usize, notes: &mut [u32; Notes::SIZE])
    requires { Listing order.now × Column column × (length notes.old ≡ size) }
    ensures { Gathered order.now column notes.old notes.new }
{
    take_column(order, column, notes);
    put_back(order.len(), column, notes);
}

// Writes the keys of the records over the first column, in order.
fn put_keys(order: &[u16], keys: &[u32], notes: &mut [u32; Notes::SIZE])
    requires { Listing order.now × (length keys.now ≡ length order.now) × (length notes.old ≡ size) }
    ensures { Written 0 (length order.now) (λ i. get_or keys.now (get_or order.now i 0) 0) notes.old notes.new }
{
    for (i, &k) in order.iter().enumerate() {
        notes[i] = keys[usize::from(k)];
    }
}

// Puts all columns in order, with the keys of the records, and how many there are.
// Shut out: a column that stays in the order of the records.
pub fn settle(order: &[u16], keys: &[u32], front: usize, notes: &mut [u32; Notes::SIZE])
    requires { Listing order.now × (length keys.now ≡ length order.now) × (front ≤ 255) × (length notes.old ≡ size) }
    ensures { Settled order.now keys.now front notes.old notes.new }
{
    gather(order, Notes::STARTS, notes);
    gather(order, Notes::MEMBERS, notes);
    put_keys(order, keys, notes);
    notes[Notes::COUNT] = order.len() as u32;
    notes[Notes::SKIP] = front as u32;
}
