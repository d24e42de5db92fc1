// Charges: moments are counted, not walked through, and amounts of either sign are added to one of two sums. Only private functions take a ride's
// length as a bare number.
ghost use Rattle.std.specs.Prelude.{◌≡◌, ◌+◌, ◌-◌, ◌^◌, ◌≤◌, ◌<◌, length};
ghost use Rattle.signed.specs.inner.Difference.{difference};
ghost use Rattle.fare.specs.Charges.{moments, clamped};
ghost use Rattle.fare.specs.inner.Folds.{bound_of, with_amount, of_price, with_charge, with_all};
ghost use Rattle.fare.specs.inner.Room.{most_ride, Payable, Chargeable};

use crate::mark::is_past;
use crate::{Charged, Kilometres, Minutes, Segment, Sum};
use decimal::Amount;

impl Segment {
    // The first moment that is no longer charged.
    // Shut out: charging at the end, or past it.
    fn bound(self, ride: u64) -> u64
        requires { ride ≤ most_ride }
        ensures { result ≡ bound_of self ride }
    {
        self.end.map_or(ride + 1, |end| end.min(ride + 1))
    }

    // How many moments are charged.
    fn count_moments(self, ride: u64) -> u64
        requires { ride ≤ most_ride }
        ensures { result ≡ length (moments self ride) }
    {
        let bound = self.bound(ride);
        if bound <= self.start {
            0
        } else if self.interval == 0 {
            1
        } else {
            (bound - 1 - self.start) / self.interval + 1
        }
    }
}

impl Sum {
    // With one amount more.
    fn with(self, amount: Amount) -> Sum
        requires { (self.added + amount.size < 2 ^ 64) × (self.taken + amount.size < 2 ^ 64) }
        ensures { result ≡ with_amount self amount }
    {
        if amount.negative {
            Sum {
                taken: self.taken + amount.size,
                ..self
            }
        } else {
            Sum {
                added: self.added + amount.size,
                ..self
            }
        }
    }

    // The price alone.
    pub fn of_price(price: Amount) -> Sum
        ensures { result ≡ of_price price }
    {
        Sum { added: 0, taken: 0 }.with(price)
    }

    // With what a segment charges for a ride of this length, in the segment's own measure.
    fn with_charge(self, s: Segment, ride: u64) -> Sum
        requires { Payable self s ride }
        ensures { result ≡ with_charge self s ride }
    {
        let size = s.rate.size * s.count_moments(ride);
        self.with(Amount { size, ..s.rate })
    }

    // With what all segments charge for a ride of this length, in their own measure, and with its mark.
    // Shut out: a segment left out of the sum, or out of the mark.
    fn with_all(self, l: &[Segment], ride: u64) -> Charged
        requires { Chargeable self l.now ride }
        ensures { result ≡ with_all self l.now ride }
    {
        let mut sum = self;
        for s in l {
            sum = sum.with_charge(*s, ride);
        }
        Charged {
            sum,
            past: is_past(l, ride),
        }
    }

    // With the charges of the per-minute segments, and of the per-kilometre segments. One generic method would take either measure for either sort.
    pub fn with_minutes(self, l: &[Segment], ride: Minutes) -> Charged
        requires { Chargeable self l.now ride.count }
        ensures { result ≡ with_all self l.now ride.count }
    {
        self.with_all(l, ride.count)
    }

    pub fn with_kilometres(self, l: &[Segment], ride: Kilometres) -> Charged
        requires { Chargeable self l.now ride.count }
        ensures { result ≡ with_all self l.now ride.count }
    {
        self.with_all(l, ride.count)
    }

    // What is added beyond what is taken off; nothing where that is less.
    // Shut out: a credit to the rider where discounts outweigh the price; the size of a negative sum.
    fn excess(self) -> u64
        ensures { result ≡ self.added - self.taken }
    {
        self.added.saturating_sub(self.taken)
    }

    // The amount, of sums that the ceilings keep apart by less than 2^63.
    pub fn amount(self) -> i64
        requires { self.added - self.taken < 2 ^ 63 }
        ensures { result ≡ clamped (difference self.added self.taken) }
    {
        self.excess() as i64
    }
}
