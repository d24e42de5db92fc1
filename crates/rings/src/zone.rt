// All of a zone's coordinates: polygons of rings.
ghost use Rattle.std.specs.Prelude.{◌≡◌, ◌+◌, ◌<◌, ◌≤◌, ◌^◌, length};
ghost use Rattle.limits.specs.Ceilings.{file_bytes};
ghost use Rattle.json_text.specs.Tree.{Json};
ghost use Rattle.walk.specs.Part.{Whole};
ghost use Rattle.schema.specs.Pick.{PickedItems, items, pick};
ghost use Rattle.schema.specs.Table23.{coordinates};
ghost use Rattle.document.specs.inner.Items.{picked_items};
ghost use Rattle.rings.specs.Rings.{ring, item_count, is_ring_count, polygon, polygon_positions, are_zone_counts, coordinates_found};
ghost use Rattle.rings.specs.inner.Parts.{least_found, ring_shape, polygon_shape, Listing, judged_of, tally_of, Within, TallyWithin};

use crate::position::is_array;
use crate::ring::judge_ring;
use crate::{Field, Judged, Tally};
use fault::{Fault, lesser};
use limits::Limits;
use walk::{item_bytes, pass_item};
use word::kind::Kind;

// The items of the polygon p, the first position of which has the number n.
fn judge_rings(p: &[u8], field: Field, n: u32) -> Tally
    requires { n + length p.now < 2 ^ 32 }
    ensures { TallyWithin (length p.now) result × (Listing p.now → result ≡ tally_of field ring item_count item_count n (picked_items ring_shape p.now)) }
{
    let mut tally = Tally::none();
    let mut at: usize = 1;
    while let Some(m) = pass_item(p, at) {
        tally = tally.with(judge_ring(item_bytes(p, m), field, n + tally.positions));
        at = m.next;
    }
    tally
}

// Whether a polygon may have this many rings: one at least, and then the ceiling.
fn is_ring_count(rings: u32) -> bool
    ensures { result ≡ is_ring_count rings }
{
    (1..=Limits::RINGS as u32).contains(&rings)
}

// An item of the coordinates, whose first position has the number n.
fn judge_polygon(p: &[u8], field: Field, n: u32) -> Judged
    requires { n + length p.now < 2 ^ 32 }
    ensures { Within (length p.now) result ×
        ((x : Json) → Whole p.now x → result ≡ judged_of field (polygon n (pick polygon_shape x)) (item_count (pick polygon_shape x)) (polygon_positions (pick polygon_shape x))) }
{
    if !is_array(p) {
        return Judged {
            items: 0,
            positions: 0,
            least: field.broken(n, Kind::WRONG_TYPE),
        };
    }
    let rings = judge_rings(p, field, n);
    Judged {
        items: rings.count,
        positions: rings.positions,
        least: lesser(
            field.unless(is_ring_count(rings.count), n, Kind::BAD_RING),
            rings.least,
        ),
    }
}

// The items of the coordinates p, the first position of which has the number n.
fn judge_polygons(p: &[u8], field: Field, n: u32) -> Tally
    requires { n + length p.now < 2 ^ 32 }
    ensures { Listing p.now → result ≡ tally_of field polygon item_count polygon_positions n (picked_items polygon_shape p.now) }
{
    let mut tally = Tally::none();
    let mut at: usize = 1;
    while let Some(m) = pass_item(p, at) {
        tally = tally.with(judge_polygon(item_bytes(p, m), field, n + tally.positions));
        at = m.next;
    }
    tally
}

// Whether a zone may have this many polygons and rings.
fn are_zone_counts(polygons: u32, rings: u32) -> bool
    ensures { result ≡ are_zone_counts polygons rings }
{
    polygons <= Limits::POLYGONS as u32 && rings <= Limits::ZONE_RINGS as u32
}

// The first fault of the array that field 73 is.
// Shut out: a count of polygons, rings or positions that hides another fault; rings of a zone counted in one polygon only; a ring compared
// before it is rounded to six decimals; a number that is off by one.
pub fn judge_coordinates(p: &[u8], field: Field) -> Option<Fault>
    requires { length p.now ≤ file_bytes }
    ensures { (x : Json) (is : PickedItems) → Whole p.now x → pick coordinates x ≡ items is → result ≡ least_found field (coordinates_found is) }
{
    let polygons = judge_polygons(p, field, 1);
    lesser(
        field.unless(
            are_zone_counts(polygons.count, polygons.items),
            0,
            Kind::TOO_MANY,
        ),
        polygons.least,
    )
}
