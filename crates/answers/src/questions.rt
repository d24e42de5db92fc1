// The questions by name. A question's module works the answer out of the words behind the name, and prints it.
use crate::files::FILES;
use crate::{print, quote_trip, read_word, set, show, zone_rule};
use document::Span;
use quote::Quote;
use std::io;
use std::io::Write;
use word::Parts;
use word::refusal::Refusal;
use zone::Rule;

// The number of the table that files are judged by: that of version 2.3.
pub const TABLE: u8 = 0;

// Room for the byte strings that a line spells.
const ROOM: usize = 65536;

// The most words of a question: its name, eight files and two numbers.
const MOST_WORDS: usize = FILES + 3;

#[derive(Clone, Copy)]
enum Answer {
    Word(Result<Parts, Refusal>),
    Verdict(set::Verdict),
    Record(Result<Span, Refusal>),
    Quote(Result<Quote, Refusal>),
    Rule(Result<Rule, Refusal>),
}

// Prints the answer to a line.
pub fn print_answer<W: Write>(out: &mut W, line: &[u8]) -> io::Result<()> {
    let mut room = [0u8; ROOM];
    match ask(line, &mut room) {
        Some(Answer::Word(reading)) => read_word::print(out, reading),
        Some(Answer::Verdict(verdict)) => set::print(out, verdict),
        Some(Answer::Record(shown)) => show::print(out, shown),
        Some(Answer::Quote(quote)) => quote_trip::print(out, quote),
        Some(Answer::Rule(ruling)) => zone_rule::print(out, ruling),
        None => print::error(out),
    }
}

// The answer to a line, none where it is not a question. A blank too many makes a word of no bytes, which spells nothing.
fn ask<'l>(line: &'l [u8], room: &mut [u8]) -> Option<Answer> {
    let mut words: [&'l [u8]; MOST_WORDS] = [&[]; MOST_WORDS];
    for (place, word) in words.iter_mut().zip(line.split(is_blank)) {
        *place = word;
    }
    // Past the most words there is no such part.
    let (name, words) = words.get(..line.split(is_blank).count())?.split_first()?;
    match *name {
        b"word" => read_word::ask(words, room).map(Answer::Word),
        b"verdict" => set::ask(words, room).map(Answer::Verdict),
        b"show" => show::ask(words, room).map(Answer::Record),
        b"quote" => quote_trip::ask(words, room).map(Answer::Quote),
        b"zone" => zone_rule::ask(words, room).map(Answer::Rule),
        _ => None,
    }
}

fn is_blank(b: &u8) -> bool {
    *b == b' '
}
