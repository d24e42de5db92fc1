// Which points a zone holds.
ghost use Rattle.std.specs.Prelude.{◌≡◌};
ghost use Rattle.walk.specs.Part.{part_tree};
ghost use Rattle.schema.specs.Pick.{pick};
ghost use Rattle.schema.specs.Table23.{zone};
ghost use Rattle.geometry.specs.inner.Shifted.{OnMap, point, stands};
ghost use Rattle.rings.specs.Rings.{rings_found, polygons_found};
ghost use Rattle.rings.specs.inner.Parts.{ring_shape, polygon_shape};
ghost use Rattle.document.specs.inner.Items.{picked_items};
ghost use Rattle.zone.specs.Zone.{outline, rings_hold, polygons_hold, zone_holds};
ghost use Rattle.zone.specs.inner.Clean.{CleanRing, CleanItems, CleanZone};

use document::fields::{array_in, member};
use geometry::{Outline, Position, Standing};
use rings::position::position_in;
use walk::{item_bytes, pass_item};

// Where the point stands to a polygon's rings once the ring `p` was asked too. Each position is read once, and an edge with the point on it ends the walk.
// Shut out: an edge left out.
fn stand_to(p: &[u8], q: Position, first: bool, held: bool) -> Standing
    requires { CleanRing p.now × OnMap q }
    ensures { result ≡ stands first held (outline (pick ring_shape (part_tree p.now))) (point q) }
{
    let mut ring = Outline::none();
    let mut odd = false;
    let mut at: usize = 1;
    while let Some(m) = pass_item(p, at) {
        let next = position_in(item_bytes(p, m));
        if ring.meets(next, q) {
            return Standing::Edge;
        }
        odd = odd != ring.crosses(next, q);
        ring = ring.with(next);
        at = m.next;
    }
    Standing::Is(ring.holds(odd, first, held))
}

// Whether the polygon `p` holds the point. Each ring is read and walked once, and an edge ends it.
fn rings_hold(p: &[u8], q: Position) -> bool
    requires { CleanItems ring_shape rings_found p.now × OnMap q }
    ensures { result ≡ rings_hold (picked_items ring_shape p.now) (point q) }
{
    let mut first = true;
    let mut held = false;
    let mut at: usize = 1;
    while let Some(m) = pass_item(p, at) {
        match stand_to(item_bytes(p, m), q, first, held) {
            Standing::Edge => {
                return true;
            }
            Standing::Is(b) => {
                first = false;
                held = b;
                at = m.next;
            }
        }
    }
    held
}

// Whether a polygon of the coordinates `p` does.
fn polygons_hold(p: &[u8], q: Position) -> bool
    requires { CleanItems polygon_shape polygons_found p.now × OnMap q }
    ensures { result ≡ polygons_hold (picked_items polygon_shape p.now) (point q) }
{
    let mut at: usize = 1;
    while let Some(m) = pass_item(p, at) {
        if rings_hold(item_bytes(p, m), q) {
            return true;
        }
        at = m.next;
    }
    false
}

// Whether the zone `p` does.
pub fn zone_holds(p: &[u8], q: Position) -> bool
    requires { CleanZone p.now × OnMap q }
    ensures { result ≡ zone_holds (pick zone (part_tree p.now)) (point q) }
{
    polygons_hold(array_in(member(member(p, b"geometry"), b"coordinates")), q)
}
