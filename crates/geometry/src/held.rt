// The rings of a polygon, point by point, and a point that is asked about.
ghost use Rattle.std.specs.Prelude.{[], ◌≡◌};
ghost use Rattle.geometry.specs.inner.Shifted.{OnMap, point};
ghost use Rattle.geometry.specs.inner.Outline.{Summed, clockwise_from, edge_meets, edge_crosses, held_by};

use crate::edge::{crosses, on_edge};
use crate::{Outline, Position};

impl Outline {
    // Whether the edge from the last point on to p has q on it. No edge leads to the first point.
    pub fn meets(self, p: Position, q: Position) -> bool
        requires { Summed self × OnMap p × OnMap q }
        ensures { result ≡ edge_meets self (point p) (point q) }
    {
        self.first.is_some() && on_edge(self.last, p, q)
    }

    // Whether that edge crosses east of q.
    pub fn crosses(self, p: Position, q: Position) -> bool
        requires { Summed self × OnMap p × OnMap q }
        ensures { result ≡ edge_crosses self (point p) (point q) }
    {
        self.first.is_some() && crosses(self.last, p, q)
    }

    // Whether a point off every edge is held by a polygon's rings once this one was asked too: the first of them, or a further one, with whether the point is
    // held so far. It is inside this one where an odd number of edges cross east of it.
    // Shut out: a hole that does not cut; a point inside two holes held again.
    pub fn holds(self, inside: bool, first: bool, held: bool) -> bool
        requires { Summed self }
        ensures { result ≡ held_by (clockwise_from self []) inside first held }
    {
        if first {
            inside == self.is_clockwise()
        } else {
            held && !inside
        }
    }
}
