// What a plan charges for a trip.
ghost use Rattle.std.specs.Prelude.{◌≡◌, ◌≤◌};
ghost use Rattle.notation.specs.Ascii.{bytes};
ghost use Rattle.walk.specs.Part.{Whole, part_tree};
ghost use Rattle.schema.specs.Pick.{pick};
ghost use Rattle.schema.specs.Table23.{plan};
ghost use Rattle.fare.specs.inner.Folds.{of_price, listed};
ghost use Rattle.document.specs.inner.Values.{member_of, array_by};
ghost use Rattle.quote.specs.inner.Values.{price_by, segments_by};
ghost use Rattle.quote.specs.inner.Clear.{ClearPlan, ClearSegments};
ghost use Rattle.quote.specs.Quote.{most_seconds, most_metres, quoted, plan_quote};

use crate::Quote;
use crate::numbers::price_in;
use crate::segment::segments_in;
use document::fields::{array_in, member};
use fare::{Kilometres, Minutes, Segments, Sum};

// The price of a plan alone.
fn price_of(p: &[u8]) -> Sum
    requires { ClearPlan p.now }
    ensures { result ≡ of_price (price_by (member_of p.now (bytes "price"))) }
{
    Sum::of_price(price_in(member(p, b"price")))
}

// The segments under a name.
fn segments_of(p: &[u8], name: &[u8]) -> Segments
    requires { Whole p.now (part_tree p.now) × ClearSegments (array_by (member_of p.now name.now)) }
    ensures { listed result ≡ segments_by (array_by (member_of p.now name.now)) }
{
    segments_in(array_in(member(p, name)))
}

// The quote of the plan `p` for a ride that is short enough.
// Shut out: a ride's kilometres charged by the minute; segments of one sort left out of the amount; a mark set by the other sort.
pub fn quote_plan(p: &[u8], seconds: u64, metres: u64) -> Quote
    requires { (seconds ≤ most_seconds) × (metres ≤ most_metres) × ClearPlan p.now }
    ensures { quoted result ≡ plan_quote seconds metres (Some (pick plan (part_tree p.now))) }
{
    let minutes = Minutes::of_seconds(seconds);
    let kilometres = Kilometres::of_metres(metres);
    let price = price_of(p);
    let by_minute = segments_of(p, b"per_min_pricing");
    let timed = price.with_minutes(by_minute.as_slice(), minutes);
    let sum = timed.sum;
    let by_kilometre = segments_of(p, b"per_km_pricing");
    let all = sum.with_kilometres(by_kilometre.as_slice(), kilometres);
    let total = all.sum;
    Quote {
        amount: total.amount(),
        past_minutes: timed.past,
        past_kilometres: all.past,
    }
}
