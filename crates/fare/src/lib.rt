// What a ride costs by a plan's price and segments.
#![tactic(auto)]

ghost use Rattle.std.specs.Prelude.{◌≡◌, ◌≤◌};
ghost use Rattle.limits.specs.Ceilings.{segments};

use decimal::Amount;
use limits::Limits;

pub mod charge;
pub mod length;
mod mark;

// The length of a ride in whole minutes, and in whole kilometres: two types, so that neither can stand in the other's place.
#[derive(Clone, Copy, Debug, PartialEq, Eq, PartialOrd, Ord)]
pub struct Minutes {
    pub count: u64,
}

#[derive(Clone, Copy, Debug, PartialEq, Eq, PartialOrd, Ord)]
pub struct Kilometres {
    pub count: u64,
}

// A segment of charges: the rate falls due at the start and at every interval after it, up to the end where there is one.
#[derive(Clone, Copy)]
pub struct Segment {
    pub start: u64,
    pub rate: Amount,
    pub interval: u64,
    pub end: Option<u64>,
}

// The segments of one sort as they are read: they fill the first `count` places. An array, since there is no heap.
#[derive(Clone, Copy)]
pub struct Segments {
    pub list: [Segment; Segments::PLACES],
    pub count: usize,
    ghost few: { count ≤ segments },
}

impl Segments {
    ghost use Rattle.fare.specs.inner.Folds.{listed};

    pub const PLACES: usize = Limits::SEGMENTS as usize;

    pub fn as_slice(&self) -> &[Segment]
        ensures { result.now ≡ listed self.now }
    {
        &self.list[..self.count]
    }
}

// A sum of charges: what is added and what is taken off, in ten-thousandths. It has no `==`, since equal sums may differ in both.
#[derive(Clone, Copy, Debug)]
pub struct Sum {
    pub added: u64,
    pub taken: u64,
}

// A sum with the charges of all segments of one sort, and whether the ride is past all their ends.
#[derive(Clone, Copy, Debug)]
pub struct Charged {
    pub sum: Sum,
    pub past: bool,
}
