// One edge of a ring and a point.
ghost use Rattle.std.specs.Prelude.{◌≡◌, pos};
ghost use Rattle.geometry.specs.Held.{side as side_of, between as between_of, on_edge, crosses as crosses_of};
ghost use Rattle.geometry.specs.inner.Shifted.{OnMap, point, value};

use crate::{Balance, Position};

// On which side of the line from a to b the point q lies: twice the area of the ring that they make, which may be taken moved.
pub fn side(a: Position, b: Position, q: Position) -> Balance
    requires { OnMap a × OnMap b × OnMap q }
    ensures { value result ≡ side_of (point a) (point b) (point q) }
{
    Balance::none().with(a, b).with(b, q).with(q, a)
}

// c lies between a and b, ends included.
pub fn between(a: u64, b: u64, c: u64) -> bool
    ensures { result ≡ between_of (pos a) (pos b) (pos c) }
{
    (a.min(b)..=a.max(b)).contains(&c)
}

// The edge from a to b has q on it.
pub fn on_edge(a: Position, b: Position, q: Position) -> bool
    requires { OnMap a × OnMap b × OnMap q }
    ensures { result ≡ on_edge (point a) (point b) (point q) }
{
    side(a, b, q).is_zero() && between(a.lon, b.lon, q.lon) && between(a.lat, b.lat, q.lat)
}

// The edge from a to b crosses the parallel of q strictly east of q.
pub fn crosses(a: Position, b: Position, q: Position) -> bool
    requires { OnMap a × OnMap b × OnMap q }
    ensures { result ≡ crosses_of (point a) (point b) (point q) }
{
    let s = side(a, b, q);
    if a.lat <= q.lat {
        q.lat < b.lat && s.above_zero()
    } else {
        b.lat <= q.lat && s.below_zero()
    }
}
