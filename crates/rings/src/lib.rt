// Field 73: polygons, rings and positions, each judged by its own bytes. Faults stand at positions, which are numbered over the whole zone.
#![tactic(auto)]

ghost use Rattle.std.specs.Prelude.{◌≡◌};
ghost use Rattle.scalar.specs.Scalars.{unless};
ghost use Rattle.rings.specs.Rings.{found_at};
ghost use Rattle.rings.specs.inner.Parts.{fault_at, least_found, no_tally, tallied, Countable};

use fault::{Fault, lesser};
use geometry::{Outline, Position};

pub mod position;
pub mod ring;
pub mod zone;

// The field that has the coordinates for its value, and its record: the same for every fault.
#[derive(Clone, Copy, Debug, PartialEq, Eq)]
pub struct Field {
    pub record: u32,
    pub field: u8,
}

impl Field {
    // One fault, at a position's number.
    pub fn broken(self, number: u32, kind: u8) -> Option<Fault>
        ensures { result ≡ fault_at self number kind }
    {
        Some(Fault {
            record: self.record,
            field: self.field,
            sub: number,
            kind,
        })
    }

    // A fault where the test fails, and none where it holds.
    #[tactic(auto, using(crate::proofs::Found::least_unless))]
    pub fn unless(self, test: bool, number: u32, kind: u8) -> Option<Fault>
        ensures { result ≡ least_found self (found_at number (unless test kind)) }
    {
        if test {
            None
        } else {
            self.broken(number, kind)
        }
    }
}

// A number of a position: its first fault, or its value in millionths, moved up by half of its range. No Result, since a position's parts all are read.
#[derive(Clone, Copy)]
pub struct CoordinateFound {
    pub least: Option<Fault>,
    pub value: u64,
}

// A position: its first fault, or its point. No Result: after a fault the others are still looked for, as the least of them counts, and the ring takes the origin.
#[derive(Clone, Copy)]
pub struct PositionFound {
    pub least: Option<Fault>,
    pub point: Position,
}

// The positions of a ring: their first fault, and the outline of their points as far as a ring may have positions.
#[derive(Clone, Copy)]
pub struct RingFound {
    pub least: Option<Fault>,
    pub outline: Outline,
}

// A ring or a polygon: how many items it has, how many positions, and its first fault.
#[derive(Clone, Copy, Debug, PartialEq, Eq)]
pub struct Judged {
    pub items: u32,
    pub positions: u32,
    pub least: Option<Fault>,
}

// The rings of a polygon or the polygons of a zone: how many they are, how many items and positions they have in all, and their first fault.
#[derive(Clone, Copy, Debug, PartialEq, Eq)]
pub struct Tally {
    pub count: u32,
    pub items: u32,
    pub positions: u32,
    pub least: Option<Fault>,
}

impl Tally {
    // None of them yet.
    fn none() -> Tally
        ensures { result ≡ no_tally }
    {
        Tally {
            count: 0,
            items: 0,
            positions: 0,
            least: None,
        }
    }

    // With one more of them.
    fn with(self, judged: Judged) -> Tally
        requires { Countable (tallied self judged) }
        ensures { result ≡ tallied self judged }
    {
        Tally {
            count: self.count + 1,
            items: self.items + judged.items,
            positions: self.positions + judged.positions,
            least: lesser(self.least, judged.least),
        }
    }
}
