// Why a call of the system failed, told on a line of standard error.
use std::io::{Cursor, Error, Write};
use std::str;

// Room for the text of any error of the system.
const ROOM: usize = 256;

// Writes the line: what failed, a colon and the system's text of the error. Where that can't be written either, nothing is left to tell it.
pub fn fail<R: Eprint>(rt: &R, what: &str, error: Error) {
    let mut text = Cursor::new([0u8; ROOM]);
    let _ = write!(text, "{error}");
    let n = text.position().min(ROOM as u64) as usize;
    let room = text.into_inner();
    let reason = reason_in(&room[..n]);
    let _ = eprintln!(rt; "{what}: {reason}");
}

// The system's text, without the number that std writes behind it.
fn reason_in(text: &[u8]) -> &str {
    let text = str::from_utf8(text).unwrap_or("");
    text.split_once(" (os error ")
        .map_or(text, |(reason, _)| reason)
}
