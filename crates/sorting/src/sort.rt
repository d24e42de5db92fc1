// A merge sort by halves.
ghost use Rattle.std.specs.Prelude.{◌≡◌, ◌++◌, ◌+◌, ◌-◌, ◌≤◌, length, take, drop};
ghost use Rattle.sorting.specs.Sorting.{numbers, sorted};
ghost use Rattle.sorting.specs.Ids.{id_at, not_after};
ghost use Rattle.sorting.specs.inner.Keys.{Tells};

use crate::id::Ids;
use crate::merge::merge_halves;

// The records from `first` on, as many as `order` has room for, sorted. Each half is sorted into `spare`, and the two are merged back.
#[cycle(sort_back_sort_from_sort_front)]
fn sort_from(ids: &Ids, first: usize, order: &mut [u16], spare: &mut [u16])
    requires { (length spare.old ≡ length order.old) × (first + length order.old ≤ 65_536) }
    ensures { order.new ≡ sorted (not_after (id_at ids.now.p.now ids.now.places.now)) (numbers first (length order.old)) }
{
    let n = order.len();
    if n < 1 {
        return;
    }
    if n < 2 {
        order[0] = first as u16;
        return;
    }
    let middle = n / 2;
    sort_front(ids, first, middle, spare, order);
    sort_back(ids, first + middle, middle, spare, order);
    merge_halves(ids, spare, middle, order);
}

// The records from `first` on, sorted into the places of `order` before `middle`.
#[cycle(sort_back_sort_from_sort_front)]
fn sort_front(ids: &Ids, first: usize, middle: usize, order: &mut [u16], spare: &mut [u16])
    requires { (length spare.old ≡ length order.old) × (middle ≤ length order.old) × (first + middle ≤ 65_536) }
    ensures { order.new ≡ sorted (not_after (id_at ids.now.p.now ids.now.places.now)) (numbers first middle) ++ drop middle order.old }
{
    sort_from(ids, first, &mut order[..middle], &mut spare[..middle]);
}

// The records from `first` on, sorted into the places of `order` from `middle` on.
#[cycle(sort_back_sort_from_sort_front)]
fn sort_back(ids: &Ids, first: usize, middle: usize, order: &mut [u16], spare: &mut [u16])
    requires { (length spare.old ≡ length order.old) × (middle ≤ length order.old) × (first + (length order.old - middle) ≤ 65_536) }
    ensures { order.new ≡ take middle order.old ++ sorted (not_after (id_at ids.now.p.now ids.now.places.now)) (numbers first (length order.old - middle)) }
{
    sort_from(ids, first, &mut order[middle..], &mut spare[middle..]);
}

// The records 0, 1 and so on, as many as `order` has room for, in the order of their ids, and equal ids by record. What `order` and `spare` held is lost. It
// takes some n log n comparisons whatever the ids are, nearly all of keys, and no id is copied.
// Shut out: equal ids with the later record first; a half that stays unsorted.
pub fn sort(p: &[u8], places: &[u32], keys: &[u32], order: &mut [u16], spare: &mut [u16])
    requires { (length spare.old ≡ length order.old) × (length order.old ≤ 65_536) × Tells p.now places.now keys.now }
    ensures { order.new ≡ sorted (not_after (id_at p.now places.now)) (numbers 0 (length order.old)) }
{
    let ids = Ids { p, places, keys };
    sort_from(&ids, 0, order, spare);
}
