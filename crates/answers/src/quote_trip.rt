// The question `quote`, file 5, a plan's id and a trip's seconds and metres: what the trip costs.
use crate::questions::TABLE;
use crate::{hex, number, print};
use quote::{Quote, quote_trip};
use std::io;
use std::io::Write;
use word::refusal::Refusal;

pub fn ask(words: &[&[u8]], room: &mut [u8]) -> Option<Result<Quote, Refusal>> {
    let [file, id, seconds, metres] = words else {
        return None;
    };
    let (file, room) = hex::decode(file, room)?;
    let (id, _) = hex::decode(id, room)?;
    let seconds = number::parse(seconds)?;
    let metres = number::parse(metres)?;
    Some(quote_trip(TABLE, file, id, seconds, metres))
}

// The amount, and two marks: 1 where one is set.
pub fn print<W: Write>(out: &mut W, quote: Result<Quote, Refusal>) -> io::Result<()> {
    match quote {
        Ok(q) => {
            print::found(out)?;
            writeln!(
                out,
                " {} {} {}",
                q.amount,
                u8::from(q.past_minutes),
                u8::from(q.past_kilometres)
            )
        }
        Err(refusal) => print::refusal(out, refusal),
    }
}
