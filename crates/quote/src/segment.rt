// The segments of a plan: read one by one, each into its place.
ghost use Rattle.std.specs.Prelude.{[], ◌⊎◌, ◌≡◌};
ghost use Rattle.schema.specs.Shape.{integer};
ghost use Rattle.fare.specs.inner.Folds.{listed};
ghost use Rattle.quote.specs.inner.Values.{end_by, segment_by, segments_by};
ghost use Rattle.quote.specs.inner.Clear.{ClearValue, ClearSegment, ClearSegments};

use crate::numbers::{integer_in, money_in};
use decimal::Amount;
use document::fields::member;
use fare::{Segment, Segments};
use walk::{item_bytes, pass_item};

// The end, where there is one.
// Shut out: an end of a single digit taken for none.
fn end_in(q: &[u8]) -> Option<u64>
    requires { (q.now ≡ []) ⊎ ClearValue integer q.now }
    ensures { result ≡ end_by q.now }
{
    if q.is_empty() {
        None
    } else {
        Some(integer_in(q))
    }
}

// The segment that an object is.
// Shut out: the start read for the interval.
fn segment_in(p: &[u8]) -> Segment
    requires { ClearSegment p.now }
    ensures { result ≡ segment_by p.now }
{
    Segment {
        start: integer_in(member(p, b"start")),
        rate: money_in(member(p, b"rate")),
        interval: integer_in(member(p, b"interval")),
        end: end_in(member(p, b"end")),
    }
}

// What stands in a place that no segment has filled.
fn unfilled() -> Segment {
    let rate = Amount {
        negative: false,
        size: 0,
    };
    Segment {
        start: 0,
        rate,
        interval: 0,
        end: None,
    }
}

// The segments in the array `p`.
// Shut out: the last segment left out.
pub fn segments_in(p: &[u8]) -> Segments
    requires { ClearSegments p.now }
    ensures { listed result ≡ segments_by p.now }
{
    let none = unfilled();
    let mut list: [Segment; Segments::PLACES] = [none; Segments::PLACES];
    let mut count: usize = 0;
    let mut at: usize = 1;
    while let Some(m) = pass_item(p, at) {
        list[count] = segment_in(item_bytes(p, m));
        count += 1;
        at = m.next;
    }
    Segments { list, count }
}
