// The question `verdict`, the length of a buffer and eight files: the number, and the word that then stands in the buffer.
use crate::files::Files;
use crate::questions::TABLE;
use crate::{files, number};
use std::io;
use std::io::Write;
use verdict::{Acceptance, verdict};
use word::Word;

// What the verdict is, and the word in the buffer.
#[derive(Clone, Copy)]
pub struct Verdict {
    acceptance: Acceptance,
    word: [u8; Word::SIZE],
}

// How much longer a buffer is than the word makes no difference to the answer.
pub fn ask(words: &[&[u8]], room: &mut [u8]) -> Option<Verdict> {
    let [length, files @ ..] = words else {
        return None;
    };
    let size = number::parse(length)?.min(Word::SIZE as u64) as usize;
    let Files { files } = files::decode(files, room)?;
    let mut word = [0; Word::SIZE];
    let acceptance = verdict(TABLE, files, &mut word[..size]);
    Some(Verdict { acceptance, word })
}

pub fn print<W: Write>(out: &mut W, verdict: Verdict) -> io::Result<()> {
    write!(out, "{}", verdict.acceptance.number())?;
    match verdict.acceptance {
        Acceptance::NoRoom => {}
        _ => print_word(out, verdict.word)?,
    }
    writeln!(out)
}

// A word in hex, byte by byte: what is lost where standard output takes no more is a piece of this size.
fn print_word<W: Write>(out: &mut W, word: [u8; Word::SIZE]) -> io::Result<()> {
    write!(out, " ")?;
    for b in word {
        write!(out, "{b:02x}")?;
    }
    Ok(())
}
