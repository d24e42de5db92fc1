// A record of file 4: a position of its own unless it stands at a station, and what it refers to.
ghost use Rattle.std.specs.Prelude.{◌≡◌};
ghost use Rattle.schema.specs.Tables.{sheet_of};
ghost use Rattle.fault.specs.Fault.{least};
ghost use Rattle.ids.specs.inner.Known.{Searchable};
ghost use Rattle.cross.specs.Cross.{bike_faults};
ghost use Rattle.cross.specs.inner.Judged.{file_by, files_by, Known, position_by, vehicle_by, Judges, Slotted};
ghost use Rattle.cross.specs.Stage.{contents};

use crate::references::{demanded_in, refers_in};
use crate::set::{FILES, LENT, file_in, notes_in};
use crate::slotted::value_in;
use fault::{Fault, Place, lesser};
use ids::Notes;
use ids::references::demanded;
use slots::Slots;

// Fields 41 and 42, by their values and that of field 47.
fn judge_position(station: &[u8], lat: &[u8], lon: &[u8], place: Place) -> Option<Fault>
    ensures { result ≡ least (position_by place station.now lat.now lon.now) }
{
    let needed = station.len() == 0;
    let a = place.broken(41, demanded(needed, lat));
    let b = place.broken(42, demanded(needed, lon));
    lesser(a, b)
}

// Fields 45 and 46, by their values.
fn judge_vehicle(
    table: u8,
    reference: &[u8],
    range: &[u8],
    place: Place,
    types: &[u8],
    type_notes: &[u32; Notes::SIZE],
) -> Option<Fault>
    requires { Searchable (sheet_of table 1) types.now type_notes.now }
    ensures { result ≡ least (vehicle_by place (file_by (sheet_of table 1) types.now) reference.now range.now) }
{
    let a = place.broken(45, demanded(0 < types.len(), reference));
    let b = place.broken(45, refers_in(reference, table, 1, types, type_notes));
    let c = place.broken(
        46,
        demanded_in(reference, range, table, 1, types, type_notes),
    );
    lesser(lesser(a, b), c)
}

// The n-th record `p` by its slots.
pub fn judge_bike<'a, 'n>(
    table: u8,
    p: &[u8],
    slots: &Slots,
    n: u32,
    records: [&'a [u8]; FILES],
    notes: [&'n [u32; Notes::SIZE]; LENT],
) -> Option<Fault>
    requires { Slotted (sheet_of table 4) p.now slots.now × Known table 4 (contents records) (contents notes) }
    ensures { Judges (sheet_of table 4) (bike_faults (files_by table (contents records.entry)) n) p.now result }
{
    let place = Place { record: n, sub: 0 };
    let station = value_in(p, slots, 7);
    let a = judge_position(station, value_in(p, slots, 1), value_in(p, slots, 2), place);
    let b = judge_vehicle(
        table,
        value_in(p, slots, 5),
        value_in(p, slots, 6),
        place,
        file_in(records, 1),
        notes_in(notes, 0),
    );
    let c = place.broken(
        47,
        refers_in(station, table, 2, file_in(records, 2), notes_in(notes, 1)),
    );
    let plan = value_in(p, slots, 8);
    let d = place.broken(
        48,
        refers_in(plan, table, 5, file_in(records, 5), notes_in(notes, 2)),
    );
    lesser(lesser(a, b), lesser(c, d))
}
