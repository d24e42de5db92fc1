// A record of file 1: a range unless a human drives, and a plan.
ghost use Rattle.schema.specs.Tables.{sheet_of};
ghost use Rattle.cross.specs.Cross.{type_faults};
ghost use Rattle.cross.specs.inner.Judged.{files_by, Known, Judges, Slotted};
ghost use Rattle.cross.specs.Stage.{contents};

use crate::references::refers_in;
use crate::set::{FILES, LENT, file_in, notes_in};
use crate::slotted::value_in;
use fault::{Fault, Place, lesser};
use ids::Notes;
use ids::lookup::is_motorized;
use ids::references::demanded;
use slots::Slots;

// The n-th record `p` by its slots.
pub fn judge_type<'a, 'n>(
    table: u8,
    p: &[u8],
    slots: &Slots,
    n: u32,
    records: [&'a [u8]; FILES],
    notes: [&'n [u32; Notes::SIZE]; LENT],
) -> Option<Fault>
    requires { Slotted (sheet_of table 1) p.now slots.now × Known table 1 (contents records) (contents notes) }
    ensures { Judges (sheet_of table 1) (type_faults (files_by table (contents records.entry)) n) p.now result }
{
    let place = Place { record: n, sub: 0 };
    let plans = file_in(records, 5);
    let motorized = is_motorized(value_in(p, slots, 2));
    let reference = value_in(p, slots, 4);
    let a = place.broken(13, demanded(motorized, value_in(p, slots, 3)));
    let b = place.broken(14, demanded(0 < plans.len(), reference));
    let c = place.broken(
        14,
        refers_in(reference, table, 5, plans, notes_in(notes, 2)),
    );
    lesser(a, lesser(b, c))
}
