// One position: an array of lon, lat and perhaps a third number.
ghost use Rattle.std.specs.Prelude.{◌≡◌, List, ◌∷◌, map, [], ◌*◌, ◌≤◌};
ghost use Rattle.json_text.specs.Tree.{Json};
ghost use Rattle.walk.specs.declared.Item.{Item};
ghost use Rattle.walk.specs.Part.{Whole};
ghost use Rattle.walk.proofs.Left.{Left};
ghost use Rattle.walk.specs.inner.Kind.{kind_at};
ghost use Rattle.schema.specs.Pick.{Picked, pick};
ghost use Rattle.document.specs.inner.Items.{picked, picked_items};
ghost use Rattle.rings.specs.Rings.{found_at, position_kinds, position};
ghost use Rattle.geometry.specs.inner.Shifted.{OnMap, origin, point};
ghost use Rattle.rings.specs.inner.Parts.{least_found, number_shape, position_shape, Listing, is_array, is_number, FindsCoordinate, rest_kinds, FindsPosition, FindsNumbers};

use crate::{CoordinateFound, Field, PositionFound};
use decimal::spelling::read_decimal;
use document::fields::{ARRAY, NUMBER, code_of};
use fault::{Fault, lesser};
use geometry::Position;
use walk::{item_bytes, pass_item};
use word::kind::Kind;

pub fn is_array(p: &[u8]) -> bool
    ensures { result ≡ is_array (kind_at p.now) }
{
    code_of(p) == ARRAY
}

fn is_number(p: &[u8]) -> bool
    ensures { result ≡ is_number (kind_at p.now) }
{
    code_of(p) == NUMBER
}

impl CoordinateFound {
    fn broken(least: Option<Fault>) -> CoordinateFound
        ensures { result ≡ record { least = least; value = 0 } }
    {
        CoordinateFound { least, value: 0 }
    }
}

// Lon or lat, from -most to most degrees.
fn read_coordinate(p: &[u8], most: u64, field: Field, number: u32) -> CoordinateFound
    requires { most ≤ 180 }
    ensures { (result.value ≤ most * 2_000_000) × ((x : Json) → Whole p.now x → FindsCoordinate field most number (pick number_shape x) result) }
{
    if !is_number(p) {
        return CoordinateFound::broken(field.broken(number, Kind::WRONG_TYPE));
    }
    let Some(d) = read_decimal(p) else {
        return CoordinateFound::broken(field.broken(number, Kind::NUMBER_FORM));
    };
    if !d.within(most) {
        return CoordinateFound::broken(field.broken(number, Kind::OUT_OF_RANGE));
    }
    CoordinateFound {
        least: None,
        value: d.coordinate(most),
    }
}

// What follows lon and lat: nothing, or one number of any size.
fn judge_rest(p: &[u8], at: usize, field: Field, number: u32) -> Option<Fault>
    ensures { (ms : List Item) → Left p.now at ms → result ≡ least_found field (found_at number (rest_kinds (map (picked number_shape p.now) ms))) }
{
    let third = pass_item(p, at)?;
    let least = field.unless(is_number(item_bytes(p, third)), number, Kind::WRONG_TYPE);
    let Some(_) = pass_item(p, third.next) else {
        return least;
    };
    lesser(field.broken(number, Kind::BAD_RING), least)
}

impl PositionFound {
    fn broken(least: Option<Fault>) -> PositionFound
        ensures { result ≡ record { least = least; point = origin } }
    {
        PositionFound {
            least,
            point: Position::origin(),
        }
    }
}

// Lat and what follows it, behind lon.
fn judge_behind(
    p: &[u8],
    at: usize,
    lon: CoordinateFound,
    field: Field,
    number: u32,
) -> PositionFound
    requires { lon.value ≤ 180 * 2_000_000 }
    ensures { OnMap result.point ×
        ((x : Picked) (ms : List Item) → FindsCoordinate field 180 number x lon → Left p.now at ms
        → FindsNumbers field number (x ∷ map (picked number_shape p.now) ms) result) }
{
    let Some(second) = pass_item(p, at) else {
        return PositionFound::broken(lesser(field.broken(number, Kind::BAD_RING), lon.least));
    };
    let lat = read_coordinate(item_bytes(p, second), 90, field, number);
    let rest = judge_rest(p, second.next, field, number);
    PositionFound {
        least: lesser(lon.least, lesser(lat.least, rest)),
        point: Position {
            lon: lon.value,
            lat: lat.value,
        },
    }
}

fn judge_numbers(p: &[u8], field: Field, number: u32) -> PositionFound
    ensures { OnMap result.point ×
        (Listing p.now → FindsNumbers field number (picked_items number_shape p.now) result) }
{
    let Some(first) = pass_item(p, 1) else {
        return PositionFound::broken(field.broken(number, Kind::BAD_RING));
    };
    let lon = read_coordinate(item_bytes(p, first), 180, field, number);
    judge_behind(p, first.next, lon, field, number)
}

// The least kind of a position, at its number; and its point, where it is sound.
pub fn judge_position(p: &[u8], field: Field, number: u32) -> PositionFound
    ensures { OnMap result.point × ((x : Json) → Whole p.now x → FindsPosition field number (position_kinds (pick position_shape x)) (position (pick position_shape x)) result) }
{
    if !is_array(p) {
        return PositionFound::broken(field.broken(number, Kind::WRONG_TYPE));
    }
    judge_numbers(p, field, number)
}

// The point of a position that is sound.
pub fn position_in(p: &[u8]) -> Position
    ensures { OnMap result × ((x : Json) → Whole p.now x → position_kinds (pick position_shape x) ≡ [] → point result ≡ position (pick position_shape x)) }
{
    let field = Field {
        record: 0,
        field: 0,
    };
    judge_position(p, field, 0).point
}
