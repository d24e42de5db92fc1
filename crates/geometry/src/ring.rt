// A ring by itself, point by point: which way round it goes, and whether it is one.
ghost use Rattle.std.specs.Prelude.{◌≡◌, ◌+◌, ◌<◌, ◌^◌, ltb, []};
ghost use Rattle.limits.specs.Ceilings.{positions};
ghost use Rattle.notation.specs.Choice.{◌⇒◌else◌};
ghost use Rattle.geometry.specs.inner.Shifted.{OnMap, added, value};
ghost use Rattle.geometry.specs.inner.Outline.{no_outline, is_empty, joined, Summed, area_from, clockwise_from, sound_from};

use crate::{Balance, Outline, Position};
use limits::Limits;

impl Outline {
    // No point yet.
    pub fn none() -> Outline
        ensures { result ≡ no_outline }
    {
        Outline {
            count: 0,
            first: None,
            last: Position::origin(),
            area: Balance::none(),
        }
    }

    // The area sum, once p was taken too. A ring of more positions than the ceiling is not asked for it, so there the sum stays.
    fn area_with(self, p: Position) -> Balance
        requires { Summed self × OnMap p }
        ensures { result ≡ (ltb self.count positions ⇒ added self.area self.last p else self.area) }
    {
        if self.count < u32::from(Limits::POSITIONS) {
            self.area.with(self.last, p)
        } else {
            self.area
        }
    }

    // With one point more.
    pub fn with(self, p: Position) -> Outline
        requires { Summed self × OnMap p × (self.count + 1 < 2 ^ 32) }
        ensures { result ≡ joined self p }
    {
        Outline {
            count: self.count + 1,
            first: Some(self.first.unwrap_or(p)),
            last: p,
            area: self.area_with(p),
        }
    }

    // The area sum. A line from the origin and back to it closes, so it may be taken moved; and the edges that meet the origin add nothing.
    fn area_sum(self) -> Balance
        requires { Summed self }
        ensures { value result ≡ area_from self [] }
    {
        self.area.with(self.last, Position::origin())
    }

    // The inside lies to the right of each edge.
    pub fn is_clockwise(self) -> bool
        requires { Summed self }
        ensures { result ≡ clockwise_from self [] }
    {
        self.area_sum().below_zero()
    }

    // The last point is the first again, and there is an area.
    pub fn is_sound(self) -> bool
        requires { Summed self }
        ensures { result ≡ sound_from self [] }
    {
        self.first == Some(self.last) && !self.area_sum().is_zero()
    }
}
