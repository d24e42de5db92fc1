// What the rules of a file of zones say together at a point and a moment for a type of vehicle.
#![tactic(auto)]

ghost use Rattle.std.specs.Prelude.{◌≡◌};
ghost use Rattle.schema.specs.Tables.{table_at};
ghost use Rattle.zone.specs.Answer.{answer, ruling_of};

use crate::point::{on_map, raised};
use crate::zones::rule_in;
use clean::check_clean;
use geometry::Position;
use schema::sheets::sheet_of;
use word::refusal::Refusal;

mod area;
mod point;
mod rules;
mod values;
mod window;
mod zones;

// The four values of an answer: a speed, and whether parking needs a station, where they are given.
#[derive(Clone, Copy, Debug, PartialEq, Eq)]
pub struct Rule {
    pub ride: bool,
    pub through: bool,
    pub speed: Option<u64>,
    pub parking: Option<bool>,
}

// What the rules so far give, each value by the first that gives it; `any` where there is a rule at all.
#[derive(Clone, Copy, Debug, PartialEq, Eq)]
pub struct Given {
    pub any: bool,
    pub ride: Option<bool>,
    pub through: Option<bool>,
    pub speed: Option<u64>,
    pub parking: Option<bool>,
}

// The number of the file of zones.
const FILE: u8 = 6;

// The values at a point, in millionths of a degree, for a type at a moment, by a table and the bytes of the file of zones: each by the first rule that applies
// and gives it.
// Shut out: a zone that still counts at its end; an empty field 78 read as everybody; a later rule's value where an earlier one gives it.
pub fn zone_rule(
    table: u8,
    s: &[u8],
    lon: i64,
    lat: i64,
    type_id: &[u8],
    moment: u64,
) -> Result<Rule, Refusal>
    ensures { answer result ≡ ruling_of (table_at table) s.now (record { lon = lon; lat = lat }) type_id.now moment }
{
    if !on_map(lon, lat) {
        return Err(Refusal::OffMap);
    }
    check_clean(sheet_of(table, FILE), FILE, s)?;
    let q = Position {
        lon: raised(lon, 180_000_000),
        lat: raised(lat, 90_000_000),
    };
    rule_in(table, s, q, type_id, moment)
}
