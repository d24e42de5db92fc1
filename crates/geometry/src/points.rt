// Points, moved up.
ghost use Rattle.std.specs.Prelude.{◌≡◌};
ghost use Rattle.geometry.specs.inner.Shifted.{origin};

use crate::Position;

impl Position {
    // Lon 0 and lat 0.
    pub fn origin() -> Position
        ensures { result ≡ origin }
    {
        Position {
            lon: 180_000_000,
            lat: 90_000_000,
        }
    }
}
