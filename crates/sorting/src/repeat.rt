// The first record whose id one before it has, told by neighbours in the order.
ghost use Rattle.std.specs.Prelude.{◌≡◌, ◌+◌, length};
ghost use Rattle.notation.specs.Choice.{◌⇒◌else◌};
ghost use Rattle.sorting.specs.Ids.{id_at, Ordered};
ghost use Rattle.sorting.specs.Repeats.{same_id, first_repeat};
ghost use Rattle.sorting.specs.inner.Keys.{Tells};
ghost use Rattle.sorting.specs.inner.Lesser.{lesser};

use crate::id::{Ids, id_from};
use std::cmp::Ordering;
use text::compare::text_is;

impl Ids<'_> {
    // Whether the record j has an id, and the record i has the same.
    fn same(&self, i: u16, j: u16) -> bool
        ensures { result ≡ same_id (id_at self.now.p.now self.now.places.now) i j }
    {
        match self.order(i, j) {
            Ordering::Equal => !text_is(id_from(self.p, self.places, j as usize), b""),
            Ordering::Less | Ordering::Greater => false,
        }
    }
}

// Whether the record j has an id, and the record i has the same.
pub fn same_id(p: &[u8], places: &[u32], keys: &[u32], i: u16, j: u16) -> bool
    requires { Tells p.now places.now keys.now }
    ensures { result ≡ same_id (id_at p.now places.now) i j }
{
    Ids { p, places, keys }.same(i, j)
}

// The number of the record k, counted from 1.
fn counted(k: u16) -> usize
    ensures { result ≡ k + 1 }
{
    usize::from(k) + 1
}

// The number of the record j, counted from 1, where its neighbour i has its id; 0 where it has not.
fn repeat_at(ids: &Ids, i: u16, j: u16) -> usize
    ensures { result ≡ (same_id (id_at ids.now.p.now ids.now.places.now) i j ⇒ j + 1 else 0) }
{
    if ids.same(i, j) { counted(j) } else { 0 }
}

// The lesser of two numbers, of which 0 is none. They are the numbers of the result and of its definition, so an Option would be turned back into them.
#[tactic(auto, using(crate::proofs::Lesser::lessers))]
fn lesser(a: usize, b: usize) -> usize
    ensures { result ≡ lesser a b }
{
    if b == 0 || (a != 0 && a <= b) { a } else { b }
}

// The number, counted from 1, of the first record whose id one before it has; 0 where there is none.
// Shut out: the earlier of two records blamed; the first repeat in the order of ids taken for the first among the records.
pub fn first_repeat(p: &[u8], places: &[u32], keys: &[u32], order: &[u16]) -> usize
    requires { Ordered (id_at p.now places.now) order.now × Tells p.now places.now keys.now }
    ensures { result ≡ first_repeat (id_at p.now places.now) (length order.now) }
{
    let ids = Ids { p, places, keys };
    let mut first: usize = 0;
    for i in 1..order.len() {
        first = lesser(first, repeat_at(&ids, order[i - 1], order[i]));
    }
    first
}
