// An outline whose first point is off the map: each of its functions may be called all the same. Its next edge leads from lon 0, lat 0 one degree north, and its
// area is below zero, so that it goes clockwise; it is not sound, since it does not end where it began.
use geometry::{Balance, Outline, Position};

#[test]
fn begins_off_the_map(rt: HostRuntime) {
    let off = Position {
        lon: 360_000_001,
        lat: 0,
    };
    let north = Position {
        lat: 91_000_000,
        ..Position::origin()
    };
    let between = Position {
        lat: 90_500_000,
        ..north
    };
    let west = Position {
        lon: 179_000_000,
        ..between
    };
    let ring = Outline {
        count: 2,
        first: Some(off),
        last: Position::origin(),
        area: Balance { plus: 0, minus: 1 },
    };
    assert!(rt; ring.meets(north, between));
    assert!(rt; !ring.meets(north, west));
    assert!(rt; ring.crosses(north, west));
    assert!(rt; !ring.crosses(north, between));
    assert!(rt; ring.is_clockwise());
    assert!(rt; !ring.is_sound());
    assert!(rt; ring.holds(true, true, false));
    let longer = ring.with(north);
    assert_eq!(rt; longer.count, 3);
    assert_eq!(rt; longer.first, Some(off));
    assert_eq!(rt; longer.last, north);
}
