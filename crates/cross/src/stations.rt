// A record of file 2: the region that it names.
ghost use Rattle.schema.specs.Tables.{sheet_of};
ghost use Rattle.cross.specs.Cross.{station_faults};
ghost use Rattle.cross.specs.inner.Judged.{files_by, Known, Judges, Slotted};
ghost use Rattle.cross.specs.Stage.{contents};

use crate::references::refers_in;
use crate::set::{FILES, LENT, file_in, notes_in};
use crate::slotted::value_in;
use fault::{Fault, Place};
use ids::Notes;
use slots::Slots;

// The n-th record `p` by its slots.
// Shut out: a region looked for among the stations.
pub fn judge_station<'a, 'n>(
    table: u8,
    p: &[u8],
    slots: &Slots,
    n: u32,
    records: [&'a [u8]; FILES],
    notes: [&'n [u32; Notes::SIZE]; LENT],
) -> Option<Fault>
    requires { Slotted (sheet_of table 2) p.now slots.now × Known table 2 (contents records) (contents notes) }
    ensures { Judges (sheet_of table 2) (station_faults (files_by table (contents records.entry)) n) p.now result }
{
    let place = Place { record: n, sub: 0 };
    let region = value_in(p, slots, 5);
    place.broken(
        25,
        refers_in(region, table, 8, file_in(records, 8), notes_in(notes, 0)),
    )
}
