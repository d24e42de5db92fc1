// One ring: its positions, numbered one after the other.
ghost use Rattle.std.specs.Prelude.{◌≡◌, ◌+◌, ◌<◌, ◌^◌, length};
ghost use Rattle.json_text.specs.Tree.{Json};
ghost use Rattle.walk.specs.Part.{Whole};
ghost use Rattle.schema.specs.Pick.{pick};
ghost use Rattle.geometry.specs.inner.Outline.{Summed};
ghost use Rattle.document.specs.inner.Items.{picked_items};
ghost use Rattle.rings.specs.Rings.{ring, item_count};
ghost use Rattle.rings.specs.inner.Parts.{position_shape, ring_shape, Listing, RingRead, RingRoom, area_least, judged_of, ring_judged, Within};

use crate::position::{is_array, judge_position};
use crate::{Field, Judged, RingFound};
use fault::{Fault, lesser};
use geometry::Outline;
use limits::Limits;
use walk::{item_bytes, pass_item};
use word::kind::Kind;

// The positions of the ring p, the first with the number n. Each is read once.
fn read_ring(p: &[u8], field: Field, n: u32) -> RingFound
    requires { n + length p.now < 2 ^ 32 }
    ensures { RingRoom (length p.now) result × (Listing p.now → RingRead field n (picked_items position_shape p.now) result) }
{
    let mut outline = Outline::none();
    let mut least = None;
    let mut at: usize = 1;
    while let Some(m) = pass_item(p, at) {
        let position = judge_position(item_bytes(p, m), field, n + outline.count);
        least = lesser(least, position.least);
        outline = outline.with(position.point);
        at = m.next;
    }
    RingFound { least, outline }
}

// The area of a ring is asked for where its positions are all sound and not too many. With more of them kind 10 stands at the same number and comes before
// kind 11.
#[tactic(auto, using(crate::proofs::Areas::area_asked), unfolding(crate::specs::inner::Parts::area_least))]
fn judge_area(r: RingFound, field: Field, n: u32) -> Option<Fault>
    requires { Summed r.outline }
    ensures { result ≡ area_least field n r }
{
    match r.least {
        None if r.outline.count <= Limits::POSITIONS as u32 => field.unless(
            r.outline.is_sound(),
            n,
            Kind::BAD_RING,
        ),
        _ => None,
    }
}

fn judge_positions(p: &[u8], field: Field, n: u32) -> Judged
    requires { n + length p.now < 2 ^ 32 }
    ensures { Within (length p.now) result × (Listing p.now → result ≡ ring_judged field n (picked_items position_shape p.now)) }
{
    let r = read_ring(p, field, n);
    let count = r.outline.count;
    let few = field.unless(4 <= count, n, Kind::BAD_RING);
    let many = field.unless(count <= Limits::POSITIONS as u32, n, Kind::TOO_MANY);
    let least = lesser(lesser(lesser(few, many), r.least), judge_area(r, field, n));
    Judged {
        items: count,
        positions: count,
        least,
    }
}

// An item of a polygon, whose first position has the number n.
pub fn judge_ring(p: &[u8], field: Field, n: u32) -> Judged
    requires { n + length p.now < 2 ^ 32 }
    ensures { Within (length p.now) result ×
        ((x : Json) → Whole p.now x → result ≡ judged_of field (ring n (pick ring_shape x)) (item_count (pick ring_shape x)) (item_count (pick ring_shape x))) }
{
    if !is_array(p) {
        return Judged {
            items: 0,
            positions: 0,
            least: field.broken(n, Kind::WRONG_TYPE),
        };
    }
    judge_positions(p, field, n)
}
