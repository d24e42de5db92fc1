// The zones of a file, one after the other.
ghost use Rattle.std.specs.Prelude.{◌≡◌};
ghost use Rattle.walk.specs.Part.{part_tree};
ghost use Rattle.schema.specs.Table23.{zone};
ghost use Rattle.schema.specs.Tables.{table_at};
ghost use Rattle.schema.specs.Pick.{pick};
ghost use Rattle.geometry.specs.inner.Shifted.{OnMap, point};
ghost use Rattle.document.specs.inner.Items.{picked_items};
ghost use Rattle.clean.specs.Clean.{clean_of};
ghost use Rattle.zone.specs.Zone.{zone_rules, rules, applicable, rules_at};
ghost use Rattle.zone.specs.Answer.{answer, of_rules};
ghost use Rattle.zone.specs.inner.Values.{or_given, all_given};
ghost use Rattle.zone.specs.inner.Clean.{CleanZone, CleanZones};
ghost use Rattle.fault.specs.Outcome.{unbroken};

use crate::area::zone_holds;
use crate::rules::with_rules;
use crate::window::counts;
use crate::{FILE, Given, Rule};
use document::fields::{array_in, member};
use document::records_from;
use geometry::Position;
use schema::sheets::sheet_of;
use walk::{item_bytes, pass_item};
use word::refusal::Refusal;

// What is given so far, joined by what the rules of the zone `p` give for a type, where the zone counts at the moment and holds the point.
fn with_zone(p: &[u8], q: Position, type_id: &[u8], moment: u64, start: Given) -> Given
    requires { CleanZone p.now × OnMap q }
    ensures { result ≡ or_given start (all_given (applicable (zone_rules (pick zone (part_tree p.now)) (point q) moment) type_id.now)) }
{
    let properties = member(p, b"properties");
    if !counts(properties, moment) {
        return start;
    }
    if !zone_holds(p, q) {
        return start;
    }
    with_rules(array_in(member(properties, b"rules")), type_id, start)
}

// What the rules of the zones in the array at the front of `p` give. Once all values are there no further zone is asked.
fn given_by_zones(p: &[u8], q: Position, type_id: &[u8], moment: u64) -> Given
    requires { CleanZones p.now × OnMap q }
    ensures { result ≡ all_given (applicable (rules (picked_items zone p.now) (point q) moment) type_id.now) }
{
    let mut given = Given::nothing();
    let mut at: usize = 1;
    while let Some(m) = pass_item(p, at) {
        given = with_zone(item_bytes(p, m), q, type_id, moment, given);
        if given.is_full() {
            return given;
        }
        at = m.next;
    }
    given
}

// The answer by a table and a clean file; an absent one has no zones.
pub fn rule_in(
    table: u8,
    s: &[u8],
    q: Position,
    type_id: &[u8],
    moment: u64,
) -> Result<Rule, Refusal>
    requires { (clean_of (table_at table) 6 s.now ≡ unbroken) × OnMap q }
    ensures { answer result ≡ of_rules (rules_at (table_at table) s.now (point q) type_id.now moment) }
{
    if s.len() == 0 {
        return Err(Refusal::NoRule);
    }
    let records = records_from(sheet_of(table, FILE), s);
    given_by_zones(records, q, type_id, moment).ruling()
}
