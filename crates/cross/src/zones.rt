// The records of file 6: the types that their rules name.
ghost use Rattle.std.specs.Prelude.{◌≡◌, ◌≤◌, ◌<◌, length};
ghost use Rattle.limits.specs.Ceilings.{file_bytes};
ghost use Rattle.walk.specs.Part.{Whole, part_tree};
ghost use Rattle.walk.specs.inner.Along.{AlongItems};
ghost use Rattle.schema.specs.Shape.{Sort, scalar};
ghost use Rattle.schema.specs.Tables.{sheet_of};
ghost use Rattle.schema.specs.Table23.{rule as rule_shape};
ghost use Rattle.schema.specs.Records.{record_shape};
ghost use Rattle.fault.specs.Fault.{least};
ghost use Rattle.document.specs.inner.Items.{picked_items};
ghost use Rattle.cross.specs.Cross.{each_record, id_faults, rule_faults, zone_faults};
ghost use Rattle.ids.specs.inner.Known.{Searchable};
ghost use Rattle.cross.specs.inner.Judged.{file_by, Judges};
ghost use Rattle.cross.specs.inner.Recorded.{Recorded};

use crate::references::refers_in;
use document::fields::{array_in, member};
use fault::{Fault, Place, lesser};
use ids::Notes;
use walk::pass_item;

// The items of field 78, in the array `p`.
fn judge_named(
    table: u8,
    p: &[u8],
    place: Place,
    types: &[u8],
    type_notes: &[u32; Notes::SIZE],
) -> Option<Fault>
    requires { Searchable (sheet_of table 1) types.now type_notes.now × ((0 < length p.now) → AlongItems p.now 1) }
    ensures { result ≡ least (id_faults (file_by (sheet_of table 1) types.now).records place.«record» place.sub (picked_items (scalar Sort.id) p.now)) }
{
    let mut least = None;
    let mut at: usize = 1;
    while let Some(item) = pass_item(p, at) {
        let from = item.value;
        let upto = item.value_end;
        least = lesser(
            least,
            place.broken(78, refers_in(&p[from..upto], table, 1, types, type_notes)),
        );
        at = item.next;
    }
    least
}

// The rules in the array `p`.
fn judge_rules(
    table: u8,
    p: &[u8],
    n: u32,
    types: &[u8],
    type_notes: &[u32; Notes::SIZE],
) -> Option<Fault>
    requires { Searchable (sheet_of table 1) types.now type_notes.now × (length p.now ≤ file_bytes) × ((0 < length p.now) → AlongItems p.now 1) }
    ensures { result ≡ least (rule_faults (file_by (sheet_of table 1) types.now).records n 1 (picked_items rule_shape p.now)) }
{
    let mut least = None;
    let mut sub: u32 = 0;
    let mut at: usize = 1;
    while let Some(item) = pass_item(p, at) {
        sub += 1;
        let from = item.value;
        let upto = item.value_end;
        let place = Place {
            record: n,
            sub: sub,
        };
        let ids = array_in(member(&p[from..upto], b"vehicle_type_id"));
        least = lesser(least, judge_named(table, ids, place, types, type_notes));
        at = item.next;
    }
    least
}

// The n-th record `p`.
fn judge_zone(
    table: u8,
    p: &[u8],
    n: u32,
    types: &[u8],
    type_notes: &[u32; Notes::SIZE],
) -> Option<Fault>
    requires { Searchable (sheet_of table 1) types.now type_notes.now × (length p.now ≤ file_bytes) × Whole p.now (part_tree p.now) }
    ensures { Judges (sheet_of table 6) (zone_faults (file_by (sheet_of table 1) types.now).records n) p.now result }
{
    let properties = member(p, b"properties");
    if properties.len() == 0 {
        return None;
    }
    let rules = array_in(member(properties, b"rules"));
    judge_rules(table, rules, n, types, type_notes)
}

// All zones of the array `p`, numbered from 1.
// Shut out: the first broken rule in the order of the bytes; one that stops at a zone which breaks nothing.
pub fn judge_zones(
    table: u8,
    p: &[u8],
    types: &[u8],
    type_notes: &[u32; Notes::SIZE],
) -> Option<Fault>
    requires { Searchable (sheet_of table 1) types.now type_notes.now × Recorded p.now }
    ensures { result ≡ least (each_record (zone_faults (file_by (sheet_of table 1) types.now).records) 1 (picked_items (record_shape (sheet_of table 6)) p.now)) }
{
    let mut least = None;
    let mut n: u32 = 0;
    let mut at: usize = 1;
    while let Some(item) = pass_item(p, at) {
        n += 1;
        let from = item.value;
        let upto = item.value_end;
        least = lesser(
            least,
            judge_zone(table, &p[from..upto], n, types, type_notes),
        );
        at = item.next;
    }
    least
}
