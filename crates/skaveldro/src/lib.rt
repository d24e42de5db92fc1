// The functions that other languages call: numbers and byte slices in, a number out, and the values in a buffer that the caller lends, eight bytes each, the least
// significant first. A refusal gives no values: it needs no room, and the buffer stays as it was. A buffer that is too short for an answer's values is left alone and
// the number is 2; one that is longer keeps its other bytes.
#![tactic(auto)]

ghost use Rattle.std.specs.Prelude.{[], ◌∷◌, ◌≡◌};
ghost use Rattle.skaveldro.specs.Encoding.{filled};
ghost use Rattle.skaveldro.specs.Answers.{verdict_answer, verdict_buffer, word_answer, quote_answer, zone_answer, shown_answer, told};

use crate::encode::give;
use word::Word;
use word::refusal::{number_of, parts_of, read_parts};

mod encode;
mod quote_trip;
mod show_record;
mod zone_rule;

// The number of the table that files are judged by: that of version 2.3.
const TABLE: u8 = 0;

// The verdict on a set of eight files, of which one without bytes is absent. The word stands in the first eight bytes of the buffer.
// Shut out: one file judged in another's place.
#[unsafe(no_mangle)]
pub extern "C" fn skaveldro_verdict<'a>(
    types: &'a [u8],
    stations: &'a [u8],
    statuses: &'a [u8],
    bikes: &'a [u8],
    plans: &'a [u8],
    zones: &'a [u8],
    system: &'a [u8],
    regions: &'a [u8],
    buffer: &mut [u8],
) -> u8
    ensures value { result ≡ verdict_answer
        (types.now ∷ stations.now ∷ statuses.now ∷ bikes.now
        ∷ plans.now ∷ zones.now ∷ system.now ∷ regions.now ∷ [])
        buffer.old }
    ensures buffer_after { buffer.new ≡ verdict_buffer
        (types.now ∷ stations.now ∷ statuses.now ∷ bikes.now
        ∷ plans.now ∷ zones.now ∷ system.now ∷ regions.now ∷ [])
        buffer.old }
{
    verdict::verdict(
        TABLE,
        [
            types, stations, statuses, bikes, plans, zones, system, regions,
        ],
        buffer,
    )
    .number()
}

// The question "read a word". Six values: file, kind, field, record, sub, offset.
// Shut out: the upper four bytes of a value told as its lower four; a byte past the sixth value written.
#[unsafe(no_mangle)]
pub extern "C" fn skaveldro_read_word(word: &[u8], answer: &mut [u8]) -> u8
    ensures value { result ≡ told answer.old (word_answer word.now) }
    ensures answer_after { answer.new ≡ filled answer.old (word_answer word.now).values }
{
    let reading = Word::read(word);
    give(number_of(&reading), read_parts(reading), &[], answer)
}

// The question "quote", of the bytes of file 5. Nine values: the six parts of a word, the amount in two's complement, past minutes, past kilometres.
// Shut out: one mark told in the other's place.
#[unsafe(no_mangle)]
pub extern "C" fn skaveldro_quote(
    plans: &[u8],
    id: &[u8],
    seconds: u64,
    metres: u64,
    answer: &mut [u8],
) -> u8
    ensures value { result ≡ told answer.old (quote_answer plans.now id.now seconds metres) }
    ensures answer_after { answer.new ≡ filled answer.old (quote_answer plans.now id.now seconds metres).values }
{
    let q = quote::quote_trip(TABLE, plans, id, seconds, metres);
    give(number_of(&q), parts_of(&q), &quote_trip::rest(q), answer)
}

// The question "zone rule", of the bytes of file 6. Twelve values: the six parts of a word, ride, through, whether a speed is given, the speed, whether parking is
// given, parking.
// Shut out: a speed of 0 told where none is given; one part of a file's fault told in another's place.
#[unsafe(no_mangle)]
pub extern "C" fn skaveldro_zone_rule(
    zones: &[u8],
    lon: i64,
    lat: i64,
    type_id: &[u8],
    moment: u64,
    answer: &mut [u8],
) -> u8
    ensures value { result ≡ told answer.old (zone_answer zones.now (record { lon = lon; lat = lat }) type_id.now moment) }
    ensures answer_after { answer.new ≡ filled answer.old (zone_answer zones.now (record { lon = lon; lat = lat }) type_id.now moment).values }
{
    let r = zone::zone_rule(TABLE, zones, lon, lat, type_id, moment);
    give(number_of(&r), parts_of(&r), &zone_rule::rest(r), answer)
}

// The question "show record", of a file's number and bytes. Eight values: the six parts of a word, where the record begins, where it ends. The record is that part
// of the caller's own bytes.
// Shut out: file 257 taken for file 1; a record's end told for its beginning.
#[unsafe(no_mangle)]
pub extern "C" fn skaveldro_show_record(
    file: u64,
    record: u64,
    bytes: &[u8],
    answer: &mut [u8],
) -> u8
    ensures value { result ≡ told answer.old (shown_answer file «record» bytes.now) }
    ensures answer_after { answer.new ≡ filled answer.old (shown_answer file «record» bytes.now).values }
{
    let shown = clean::show_record(TABLE, file, record, bytes);
    give(
        number_of(&shown),
        parts_of(&shown),
        &show_record::rest(shown),
        answer,
    )
}
