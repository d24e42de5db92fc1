// Keys of the ids of records: what all ids begin with is passed over, and the four bytes behind it are one number.
ghost use Rattle.std.specs.Prelude.{◌≤◌, length};
ghost use Rattle.sorting.specs.Ids.{id_at};
ghost use Rattle.sorting.specs.inner.Keys.{SameFront, Keyed};

use crate::id::id_from;
use text::key::key_of;
use text::ordering::shared;

// How many bytes the ids of the first n records all begin with: the least of what each has in common with the first, 255 at most.
// Shut out: what the last id has in common with the first.
pub fn common_front(p: &[u8], places: &[u32], n: usize) -> usize
    ensures { SameFront (id_at p.now places.now) n result × (result ≤ 255) }
{
    let first = id_from(p, places, 0);
    let mut skip: usize = 255;
    for k in 1..n {
        skip = shared(id_from(p, places, k), first, skip);
        if skip == 0 {
            return 0;
        }
    }
    skip
}

// Writes the key of each record, as many as there is room for.
pub fn fill_keys(p: &[u8], places: &[u32], skip: usize, keys: &mut [u32])
    requires { SameFront (id_at p.now places.now) (length keys.old) skip }
    ensures { Keyed (id_at p.now places.now) (length keys.old) skip keys.new }
{
    for (k, key) in keys.iter_mut().enumerate() {
        *key = key_of(id_from(p, places, k), skip, false);
    }
}
