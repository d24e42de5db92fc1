// Two runs of records that are in order, merged to one.
ghost use Rattle.std.specs.Prelude.{◌≡◌, ◌+◌, ◌≤◌, length, take, drop};
ghost use Rattle.sorting.specs.Ids.{id_at, not_after};
ghost use Rattle.sorting.specs.inner.Merge.{leads, merge};

use crate::id::Ids;

// Whether the next record comes from the first of two runs, of which i and j records are taken.
#[tactic(auto, using(crate::proofs::Merging::leads_rules))]
fn takes_first(ids: &Ids, a: &[u16], b: &[u16], i: usize, j: usize) -> bool
    ensures { result ≡ leads (not_after (id_at ids.now.p.now ids.now.places.now)) (drop i a.now) (drop j b.now) }
{
    i < a.len() && (b.len() <= j || ids.not_after(a[i], b[j]))
}

// Merges two runs to a third list.
fn merge(ids: &Ids, a: &[u16], b: &[u16], out: &mut [u16])
    requires { (length out.old ≡ length a.now + length b.now) }
    ensures { out.new ≡ merge (not_after (id_at ids.now.p.now ids.now.places.now)) a.now b.now }
{
    let mut i: usize = 0;
    let mut j: usize = 0;
    while i + j < out.len() {
        if takes_first(ids, a, b, i, j) {
            out[i + j] = a[i];
            i += 1;
        } else {
            out[i + j] = b[j];
            j += 1;
        }
    }
}

// Merges the records before the place `middle` and those from there on.
pub fn merge_halves(ids: &Ids, halves: &[u16], middle: usize, out: &mut [u16])
    requires { (middle ≤ length halves.now) × (length out.old ≡ length halves.now) }
    ensures { out.new ≡ merge (not_after (id_at ids.now.p.now ids.now.places.now)) (take middle halves.now) (drop middle halves.now) }
{
    merge(ids, &halves[..middle], &halves[middle..], out);
}
