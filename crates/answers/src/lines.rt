// The lines of standard input. The bytes of a line are gathered in a buffer, and a line that fills it is too long.
ghost use Rattle.std.specs.Prelude.{◌≤◌, length};

use crate::{print, questions};
use std::io;
use std::io::{Read, Write};

// The most bytes of a line, without its line feed.
const LONGEST: usize = 65536;

// The most bytes that one read takes.
const CHUNK: usize = 65536;

// The bytes of a line so far. Past a full buffer they are dropped.
#[derive(Drop)]
struct Line {
    buffer: [u8; LONGEST + 1],
    count: usize,
    ghost within: { count ≤ length buffer },
}

impl Line {
    fn new() -> Line {
        Line {
            buffer: [0; LONGEST + 1],
            count: 0,
        }
    }

    fn extend(&mut self, bytes: &[u8]) {
        let n = bytes.len().min(self.buffer.len() - self.count);
        self.buffer[self.count..self.count + n].copy_from_slice(&bytes[..n]);
        self.count += n;
    }

    fn clear(&mut self) {
        self.count = 0;
    }

    fn is_empty(&self) -> bool {
        self.count == 0
    }

    // The line's bytes; none where it is too long.
    fn bytes(&self) -> Option<&[u8]> {
        if self.count <= LONGEST {
            Some(&self.buffer[..self.count])
        } else {
            None
        }
    }
}

// Reads, and answers the lines that come to their end. The answers are written out before the next read. Where a read fails, or nobody is left to write to, a
// line on standard error says why; where another write fails it says so too, and the next lines are answered. A line that a failed read cuts off is not
// answered.
// Every loop must be seen to end, and input may go on for ever: turns are counted up to more than any run takes.
pub fn answer_all<R: Eprint + AllocGlobal, I: Read, W: Write>(rt: &R, input: &mut I, out: &mut W) {
    let mut line = Line::new();
    let mut chunk = [0u8; CHUNK];
    for _ in 0..u64::MAX {
        match input.read(&mut chunk) {
            Err(e) => {
                print::fail(rt, "standard input", &e);
                return;
            }
            Ok(0) => {
                print::told(rt, answer_last(out, &line).and(out.flush()));
                return;
            }
            Ok(n) => {
                let written = take_all(out, &chunk[..n], &mut line);
                if !print::told(rt, written.and(out.flush())) {
                    return;
                }
            }
        }
    }
}

// Gathers bytes, and answers each line that they end. The error is the first write that failed.
fn take_all<W: Write>(out: &mut W, chunk: &[u8], line: &mut Line) -> io::Result<()> {
    let mut written = Ok(());
    for part in chunk.split_inclusive(|b| *b == b'\n') {
        match part.strip_suffix(b"\n") {
            Some(end) => {
                line.extend(end);
                written = written.and(answer_line(out, line));
                line.clear();
            }
            None => line.extend(part),
        }
    }
    written
}

// The last line may lack its line feed; after a line feed there is none.
fn answer_last<W: Write>(out: &mut W, line: &Line) -> io::Result<()> {
    if line.is_empty() {
        return Ok(());
    }
    answer_line(out, line)
}

fn answer_line<W: Write>(out: &mut W, line: &Line) -> io::Result<()> {
    match line.bytes() {
        Some(bytes) => questions::print_answer(out, bytes),
        None => print::error(out),
    }
}
