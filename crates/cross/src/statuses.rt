// A record of file 3: its station, and the types that are available there.
ghost use Rattle.std.specs.Prelude.{not, ◌≡◌, ◌≤◌, ◌<◌, length, eqb};
ghost use Rattle.limits.specs.Ceilings.{file_bytes};
ghost use Rattle.notation.specs.Choice.{◌and◌};
ghost use Rattle.word.specs.Kinds.{sum_differs};
ghost use Rattle.word.specs.inner.Listed.{listed};
ghost use Rattle.walk.specs.inner.Along.{AlongItems};
ghost use Rattle.schema.specs.Tables.{sheet_of};
ghost use Rattle.schema.specs.Table23.{available as available_shape};
ghost use Rattle.fault.specs.Fault.{least};
ghost use Rattle.document.specs.inner.Items.{picked_items};
ghost use Rattle.document.specs.Values.{integer_in};
ghost use Rattle.document.specs.inner.Values.{there_by, array_by, spelled_by};
ghost use Rattle.ids.specs.References.{kind_if};
ghost use Rattle.cross.specs.Cross.{status_faults};
ghost use Rattle.ids.specs.inner.Known.{Searchable};
ghost use Rattle.cross.specs.inner.Judged.{Object, file_by, files_by, Known, docks_by, counts_by, Judges, Slotted};
ghost use Rattle.cross.specs.inner.Tallied.{Tallies};
ghost use Rattle.cross.specs.Stage.{contents};

use crate::references::{demanded_in, refers_in};
use crate::set::{FILES, LENT, file_in, notes_in};
use crate::slotted::value_in;
use document::fields::{array_in, integer_in, member};
use fault::{Fault, Place, lesser};
use ids::Notes;
use ids::references::demanded;
use slots::Slots;
use walk::pass_item;
use word::kind::Kind;

// What the types tell that are available: the sum of their counts, and the first rule that one breaks.
#[derive(Clone, Copy)]
pub struct Tally {
    pub sum: u64,
    pub least: Option<Fault>,
}

// The types that are available, in the array `p`, item by item.
fn judge_available(
    table: u8,
    p: &[u8],
    n: u32,
    types: &[u8],
    type_notes: &[u32; Notes::SIZE],
) -> Tally
    requires { Searchable (sheet_of table 1) types.now type_notes.now × (length p.now ≤ file_bytes) × ((0 < length p.now) → AlongItems p.now 1) }
    ensures { Tallies n (file_by (sheet_of table 1) types.now).records (picked_items available_shape p.now) result }
{
    let mut sum: u64 = 0;
    let mut least = None;
    let mut sub: u32 = 0;
    let mut at: usize = 1;
    while let Some(item) = pass_item(p, at) {
        sub += 1;
        let from = item.value;
        let upto = item.value_end;
        let q = &p[from..upto];
        let place = Place {
            record: n,
            sub: sub,
        };
        let broken = place.broken(
            38,
            refers_in(member(q, b"vehicle_type_id"), table, 1, types, type_notes),
        );
        least = lesser(least, broken);
        sum += integer_in(member(q, b"count"));
        at = item.next;
    }
    Tally { sum, least }
}

// What field 37 breaks whose counts do not sum to field 31: the kind, or 0.
fn sum_kind(available: &[u8], sum: u64, bikes: &[u8]) -> u8
    ensures { listed result ≡ kind_if (there_by available.now and not (eqb sum (integer_in (spelled_by bikes.now)))) sum_differs }
{
    if available.len() == 0 {
        return 0;
    }
    if sum == integer_in(bikes) {
        return 0;
    }
    Kind::SUM_DIFFERS
}

// Fields 30 and 32, by their values.
fn judge_docks(
    table: u8,
    reference: &[u8],
    docks: &[u8],
    place: Place,
    stations: &[u8],
    station_notes: &[u32; Notes::SIZE],
) -> Option<Fault>
    requires { Searchable (sheet_of table 2) stations.now station_notes.now }
    ensures { result ≡ least (docks_by place (file_by (sheet_of table 2) stations.now) reference.now docks.now) }
{
    let a = place.broken(30, refers_in(reference, table, 2, stations, station_notes));
    let b = place.broken(
        32,
        demanded_in(reference, docks, table, 2, stations, station_notes),
    );
    lesser(a, b)
}

// Field 37 and what stands in it, by its value and that of field 31.
fn judge_counts(
    table: u8,
    available: &[u8],
    bikes: &[u8],
    n: u32,
    types: &[u8],
    type_notes: &[u32; Notes::SIZE],
) -> Option<Fault>
    requires { Searchable (sheet_of table 1) types.now type_notes.now × (length available.now ≤ file_bytes) ×
        ((0 < length (array_by available.now)) → AlongItems (array_by available.now) 1) }
    ensures { result ≡ least (counts_by n (file_by (sheet_of table 1) types.now) available.now bikes.now) }
{
    let place = Place { record: n, sub: 0 };
    let tally = judge_available(table, array_in(available), n, types, type_notes);
    let a = place.broken(37, demanded(0 < types.len(), available));
    let b = place.broken(37, sum_kind(available, tally.sum, bikes));
    let c = tally.least;
    lesser(lesser(a, b), c)
}

// The n-th record `p` by its slots.
pub fn judge_status<'a, 'n>(
    table: u8,
    p: &[u8],
    slots: &Slots,
    n: u32,
    records: [&'a [u8]; FILES],
    notes: [&'n [u32; Notes::SIZE]; LENT],
) -> Option<Fault>
    requires { Slotted (sheet_of table 3) p.now slots.now × Known table 3 (contents records) (contents notes) × (length p.now ≤ file_bytes) × Object p.now }
    ensures { Judges (sheet_of table 3) (status_faults (files_by table (contents records.entry)) n) p.now result }
{
    let place = Place { record: n, sub: 0 };
    let a = judge_docks(
        table,
        value_in(p, slots, 0),
        value_in(p, slots, 2),
        place,
        file_in(records, 2),
        notes_in(notes, 1),
    );
    let b = judge_counts(
        table,
        value_in(p, slots, 7),
        value_in(p, slots, 1),
        n,
        file_in(records, 1),
        notes_in(notes, 0),
    );
    lesser(a, b)
}
