// The question `word BYTES`: what the bytes say as a verdict word.
use crate::{hex, print};
use std::io;
use std::io::Write;
use word::refusal::Refusal;
use word::{Parts, Word};

pub fn ask(words: &[&[u8]], room: &mut [u8]) -> Option<Result<Parts, Refusal>> {
    let [bytes] = words else {
        return None;
    };
    let (bytes, _) = hex::decode(bytes, room)?;
    Some(Word::read(bytes))
}

pub fn print<W: Write>(out: &mut W, reading: Result<Parts, Refusal>) -> io::Result<()> {
    match reading {
        Ok(p) => {
            print::found(out)?;
            print::parts(out, p)?;
            writeln!(out)
        }
        Err(refusal) => print::refusal(out, refusal),
    }
}
