// The members that lead from a file's top value to its records, by their lines in the table.
ghost use Rattle.schema.specs.inner.Ways.{LeadTo};

use crate::table::{WAY_COUNTS, WAY_FIRSTS, WAY_SECONDS, WAY_THIRDS};

// How many members there are, three at most, and the line of each; 0 for a line that there is not.
#[derive(Clone, Copy, Debug, PartialEq, Eq)]
pub struct Steps {
    pub count: usize,
    pub first: usize,
    pub second: usize,
    pub third: usize,
}

// The way to the records of a sheet; no step where it has none, or where the number is no sheet's.
pub fn steps_to(sheet: u8) -> Steps
    ensures { LeadTo sheet result }
{
    let i = usize::from(sheet);
    if WAY_COUNTS.len() <= i {
        return Steps {
            count: 0,
            first: 0,
            second: 0,
            third: 0,
        };
    }
    Steps {
        count: usize::from(WAY_COUNTS[i]),
        first: usize::from(WAY_FIRSTS[i]),
        second: usize::from(WAY_SECONDS[i]),
        third: usize::from(WAY_THIRDS[i]),
    }
}
