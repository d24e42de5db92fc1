// The rules of a zone, and what those for a type give.
ghost use Rattle.std.specs.Prelude.{◌≡◌};
ghost use Rattle.walk.specs.Part.{Whole, part_tree};
ghost use Rattle.schema.specs.Pick.{pick};
ghost use Rattle.schema.specs.Table23.{rule};
ghost use Rattle.rings.specs.inner.Parts.{Listing};
ghost use Rattle.document.specs.inner.Items.{picked_items};
ghost use Rattle.document.specs.inner.Values.{truth_by, spelled_by};
ghost use Rattle.zone.specs.Zone.{any_text, applies, applicable, integer};
ghost use Rattle.zone.specs.inner.Values.{id_shape, given_by, or_given, with_rule, all_given};

use crate::Given;
use document::fields::{NUMBER, array_in, code_of, integer_in, is_id, member};
use walk::{item_bytes, pass_item};

// The kind of booleans.
const BOOLEAN: u8 = 1;

// The boolean of a value.
fn flag_in(q: &[u8]) -> Option<bool>
    ensures { result ≡ truth_by q.now }
{
    if code_of(q) != BOOLEAN {
        return None;
    }
    if q.len() == 0 {
        return Some(false);
    }
    return Some(q[0] == b't');
}

// The speed of a value. Zero is one.
fn speed_in(q: &[u8]) -> Option<u64>
    ensures { result ≡ integer (spelled_by q.now) }
{
    if code_of(q) != NUMBER {
        return None;
    }
    return Some(integer_in(q));
}

// What the rule `p` gives.
fn given_in(p: &[u8]) -> Given
    requires { Whole p.now (part_tree p.now) }
    ensures { result ≡ given_by p.now }
{
    Given {
        any: true,
        ride: flag_in(member(p, b"ride_allowed")),
        through: flag_in(member(p, b"ride_through_allowed")),
        speed: speed_in(member(p, b"maximum_speed_kph")),
        parking: flag_in(member(p, b"station_parking")),
    }
}

// Whether a type stands among the ids of the array `p`.
fn names_type(p: &[u8], type_id: &[u8]) -> bool
    requires { Listing p.now }
    ensures { result ≡ any_text (picked_items id_shape p.now) type_id.now }
{
    let mut at: usize = 1;
    while let Some(m) = pass_item(p, at) {
        if is_id(item_bytes(p, m), type_id) {
            return true;
        }
        at = m.next;
    }
    false
}

// Whether the rule `p` is for a type: it names the type, or has no ids. An empty array names nobody.
fn applies(p: &[u8], type_id: &[u8]) -> bool
    requires { Whole p.now (part_tree p.now) }
    ensures { result ≡ applies (pick rule (part_tree p.now)) type_id.now }
{
    let ids = member(p, b"vehicle_type_id");
    if ids.len() == 0 {
        return true;
    }
    names_type(array_in(ids), type_id)
}

// What is given so far, joined by what the rule `p` gives where it is for a type.
fn with_rule(p: &[u8], type_id: &[u8], start: Given) -> Given
    requires { Whole p.now (part_tree p.now) }
    ensures { result ≡ with_rule type_id.now start (pick rule (part_tree p.now)) }
{
    if !applies(p, type_id) {
        return start;
    }
    start.or(given_in(p))
}

// What is given so far, joined by what the rules of the array `p` give that are for a type. Once all values are there no further rule is asked.
pub fn with_rules(p: &[u8], type_id: &[u8], start: Given) -> Given
    requires { Listing p.now }
    ensures { result ≡ or_given start (all_given (applicable (picked_items rule p.now) type_id.now)) }
{
    let mut given = start;
    let mut at: usize = 1;
    while let Some(m) = pass_item(p, at) {
        given = with_rule(item_bytes(p, m), type_id, given);
        if given.is_full() {
            return given;
        }
        at = m.next;
    }
    given
}
