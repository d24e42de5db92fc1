// Parts of an answer's line, to the writer of standard output; and what standard error says where input or output fails.
use std::io;
use std::io::{ErrorKind, Write};
use word::Parts;
use word::refusal::Refusal;

pub fn error<W: Write>(out: &mut W) -> io::Result<()> {
    writeln!(out, "error")
}

// The number of an answer that is no refusal. It is a piece of its own: what is lost where standard output takes no more begins and ends with a piece.
pub fn found<W: Write>(out: &mut W) -> io::Result<()> {
    write!(out, "0")
}

// A refusal: its number, and of a file that is not clean the first rule that it breaks.
pub fn refusal<W: Write>(out: &mut W, refusal: Refusal) -> io::Result<()> {
    write!(out, "{}", refusal.number())?;
    if let Refusal::NotClean(p) = refusal {
        parts(out, p)?;
    }
    writeln!(out)
}

// What a word says, after the answer's number.
pub fn parts<W: Write>(out: &mut W, p: Parts) -> io::Result<()> {
    write!(
        out,
        " {} {} {} {} {} {}",
        p.file, p.kind, p.field, p.record, p.sub, p.offset
    )
}

// Where a write has failed, a line on standard error says why. No where nobody is left to write to.
pub fn told<R: Eprint + AllocGlobal>(rt: &R, written: io::Result<()>) -> bool {
    let Err(e) = written else {
        return true;
    };
    fail(rt, "standard output", &e);
    e.kind() != ErrorKind::BrokenPipe
}

// A line on standard error: what failed, and the system's text for why, without the number that std puts behind it.
pub fn fail<R: Eprint + AllocGlobal>(rt: &R, what: &str, e: &io::Error) {
    let _ = match format!(in rt.alloc(); "{e}") {
        Ok(text) => eprintln!(rt; "{what}: {}", reason(text.as_str())),
        Err(_) => eprintln!(rt; "{what}: {e}"),
    };
}

// An error's text up to its number. The desk has this too, over a buffer, since it uses no heap; no layer is below both.
fn reason(text: &str) -> &str {
    text.split_once(" (os error ")
        .map_or(text, |(reason, _)| reason)
}
