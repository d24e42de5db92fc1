// What the mark tells of the segments.
ghost use Rattle.std.specs.Prelude.{◌≡◌};
ghost use Rattle.std.specs.List.{list_all};
ghost use Rattle.fare.specs.Charges.{past};
ghost use Rattle.fare.specs.inner.Folds.{has_ended};

use crate::Segment;

impl Segment {
    // It has an end, and the ride is at or past it.
    fn has_ended(self, ride: u64) -> bool
        ensures { result ≡ has_ended ride self }
    {
        self.end.is_some_and(|end| end <= ride)
    }
}

fn all_ended(l: &[Segment], ride: u64) -> bool
    ensures { result ≡ list_all (has_ended ride) l.now }
{
    l.iter().all(|s| s.has_ended(ride))
}

// There is a segment, all have an end, and the ride is at or past the greatest.
pub(crate) fn is_past(l: &[Segment], ride: u64) -> bool
    ensures { result ≡ past l.now ride }
{
    !l.is_empty() && all_ended(l, ride)
}
