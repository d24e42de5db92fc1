// The ids of two records, compared where they stand.
ghost use Rattle.std.specs.Prelude.{◌≡◌, drop, get_or};
ghost use Rattle.text.specs.Ordering.{order_of};
ghost use Rattle.sorting.specs.Ids.{id_at, not_after};
ghost use Rattle.sorting.specs.inner.Keys.{Tells, key_order};

use std::cmp::Ordering;
use text::ordering::order_of;

// The ids of records, and the keys that tell of their order. `places` has for each record the place in `p` where the text of its id begins; the quotation mark
// that closes it ends it. A record without an id has the place of the end.
#[derive(Clone, Copy)]
pub struct Ids<'a> {
    pub p: &'a [u8],
    pub places: &'a [u32],
    pub keys: &'a [u32],
    ghost tells: { Tells p.now places.now keys.now },
}

// Where the text of the id of the record k begins; 0 where there is no such record.
fn place_at(places: &[u32], k: usize) -> usize
    ensures { result ≡ get_or places.now k 0 }
{
    if k < places.len() {
        places[k] as usize
    } else {
        0
    }
}

// What stands in `p` from the text of the id of the record k on.
pub fn id_from<'a>(p: &'a [u8], places: &[u32], k: usize) -> &'a [u8]
    ensures { result.now ≡ drop (get_or places.now k 0) p.now }
{
    let at = place_at(places, k);
    &p[at.min(p.len())..]
}

// What the keys of two records say on the order of their ids: Equal where they say nothing.
// Shut out: keys that decide where they are equal.
#[tactic(auto, using(crate::proofs::Keying::say_rules))]
fn key_order(keys: &[u32], i: u16, j: u16) -> Ordering
    ensures { result ≡ key_order keys.now i j }
{
    let a = i as usize;
    let b = j as usize;
    if keys.len() <= a || keys.len() <= b {
        return Ordering::Equal;
    }
    keys[a].cmp(&keys[b])
}

impl Ids<'_> {
    // The order of the ids of two records: by their keys, and by the texts where the keys do not tell.
    pub fn order(&self, i: u16, j: u16) -> Ordering
        ensures { result ≡ order_of (id_at self.now.p.now self.now.places.now i) (id_at self.now.p.now self.now.places.now j) }
    {
        match key_order(self.keys, i, j) {
            Ordering::Equal => order_of(
                id_from(self.p, self.places, i as usize),
                id_from(self.p, self.places, j as usize),
                false,
            ),
            differ => differ,
        }
    }

    // Whether the record i comes no later than the record j: by their ids, and by their numbers where the ids are the same.
    pub fn not_after(&self, i: u16, j: u16) -> bool
        ensures { result ≡ not_after (id_at self.now.p.now self.now.places.now) i j }
    {
        match self.order(i, j) {
            Ordering::Less => true,
            Ordering::Equal => i <= j,
            Ordering::Greater => false,
        }
    }
}
