// What a trip costs by a plan of a file of plans.
#![tactic(auto)]

ghost use Rattle.fault.specs.Outcome.{unbroken};
ghost use Rattle.std.specs.Prelude.{◌≡◌, ◌≤◌};
ghost use Rattle.schema.specs.Shape.{file_shape};
ghost use Rattle.schema.specs.Tables.{table_at, sheet_of};
ghost use Rattle.clean.specs.Clean.{records_in, clean_of};
ghost use Rattle.clean.specs.inner.Noted.{RecordsNoted};
ghost use Rattle.quote.specs.Quote.{most_seconds, most_metres, answer, short, clean_quote, quote_of};

use crate::trip::quote_plan;
use clean::check_noted;
use document::records_from;
use ids::Notes;
use ids::search::find_record;
use schema::sheets::sheet_of;
use walk::cut;
use walk::skip::skip_value;
use word::refusal::Refusal;

mod numbers;
mod segment;
mod trip;

// A quote: the amount in ten-thousandths, and its two marks.
#[derive(Clone, Copy, Debug, PartialEq, Eq)]
pub struct Quote {
    pub amount: i64,
    pub past_minutes: bool,
    pub past_kilometres: bool,
}

impl Quote {
    // The number of the file of plans.
    const FILE: u8 = 5;

    // The longest ride.
    pub const MOST_SECONDS: u64 = 2_678_400;

    pub const MOST_METRES: u64 = 1_000_000;
}

// Whether a ride is short enough for a quote.
#[tactic(auto, unfolding(crate::specs::Quote::short))]
fn is_short(seconds: u64, metres: u64) -> bool
    ensures { result ≡ short seconds metres }
{
    seconds <= Quote::MOST_SECONDS && metres <= Quote::MOST_METRES
}

// By a table, the quote of a plan out of a clean file of plans, whose records are noted, for a ride that is short enough.
fn quote_clean(
    table: u8,
    s: &[u8],
    notes: &[u32; Notes::SIZE],
    id: &[u8],
    seconds: u64,
    metres: u64,
) -> Result<Quote, Refusal>
    requires { (clean_of (table_at table) 5 s.now ≡ unbroken) × RecordsNoted (sheet_of table 5) s.now notes.now × (seconds ≤ most_seconds) × (metres ≤ most_metres) }
    ensures { answer result ≡ clean_quote (records_in (file_shape (table_at table) 5) s.now) id.now seconds metres }
{
    if s.len() == 0 {
        return Err(Refusal::NoPlan);
    }
    let sheet = sheet_of(table, Quote::FILE);
    let records = records_from(sheet, s);
    let Some(start) = find_record(sheet, records, notes, id) else {
        return Err(Refusal::NoPlan);
    };
    let end = skip_value(records, start);
    Ok(quote_plan(cut(records, start, end), seconds, metres))
}

// What a trip costs, by a table and the plan of an id, of the bytes of file 5; an absent file has no plans. The file is read a constant number of times: once
// by stage A, once by stage B for each level of the table, and once for its ids, which are then in order, so that the plan is found by a handful of them.
// Shut out: a file's faults, or an amount, told of a ride that is too long; a plan quoted from a file that only stage A passes; the plan of another id; the
// plans before it taken for a part of it.
pub fn quote_trip(
    table: u8,
    s: &[u8],
    id: &[u8],
    seconds: u64,
    metres: u64,
) -> Result<Quote, Refusal>
    ensures { answer result ≡ quote_of (table_at table) s.now id.now seconds metres }
{
    if !is_short(seconds, metres) {
        return Err(Refusal::TooLong);
    }
    let mut notes: [u32; Notes::SIZE] = [0; Notes::SIZE];
    check_noted(sheet_of(table, Quote::FILE), Quote::FILE, s, &mut notes)?;
    quote_clean(table, s, &notes, id, seconds, metres)
}
