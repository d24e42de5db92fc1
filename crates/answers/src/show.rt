// The question `show`, eight files and then the numbers of one of them and of a record: where the record stands in its file.
use crate::files::Files;
use crate::questions::TABLE;
use crate::{files, number, print};
use clean::show_record;
use document::Span;
use std::io;
use std::io::Write;
use word::refusal::Refusal;

pub fn ask(words: &[&[u8]], room: &mut [u8]) -> Option<Result<Span, Refusal>> {
    let [files @ .., file, record] = words else {
        return None;
    };
    let Files { files } = files::decode(files, room)?;
    let file = number::parse(file)?;
    let record = number::parse(record)?;
    // Under a number that is no file's there are no bytes.
    let bytes = file
        .checked_sub(1)
        .and_then(|i| files.get(i as usize))
        .copied();
    Some(show_record(TABLE, file, record, bytes.unwrap_or(&[])))
}

pub fn print<W: Write>(out: &mut W, shown: Result<Span, Refusal>) -> io::Result<()> {
    match shown {
        Ok(span) => {
            print::found(out)?;
            writeln!(out, " {} {}", span.from, span.upto)
        }
        Err(refusal) => print::refusal(out, refusal),
    }
}
