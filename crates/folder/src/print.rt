// The answer's line, to standard output.
ghost use Rattle.std.specs.Prelude.{◌≡◌, ◌++◌, take};
ghost use Rattle.folder.specs.Line.{parts_line, line_of};

use crate::Refusal;
use crate::failure::fail;
use crate::line::Line;
use word::Parts;

// Writes the line at once. Where it can't be written whole, a line on standard error says so.
pub fn answer<R: Print + Eprint>(rt: &R, answer: Result<Parts, Refusal>) {
    let line = line_of(answer);
    if let Err(error) = rt.write_all(line.as_bytes()) {
        fail(rt, "standard output", error);
    }
}

// The whole output: a line, or no byte where a file can't be read.
// Shut out: a part printed for another.
#[tactic(auto, unfolding(crate::specs::Line::line_of))]
fn line_of(answer: Result<Parts, Refusal>) -> Line
    ensures { take result.len result.text ≡ line_of answer }
{
    let mut line = Line::new();
    match answer {
        Ok(p) => put_parts(p, &mut line),
        Err(Refusal::TooLarge) => line.put(b"too large\n"),
        Err(Refusal::Unread) => {}
    }
    line
}

// What a word says: file, kind, field, record, sub and offset.
fn put_parts(p: Parts, line: &mut Line)
    requires { line.old.len ≡ 0 }
    ensures { take line.new.len line.new.text ≡ take line.old.len line.old.text ++ parts_line p }
{
    line.put_number(u64::from(p.file));
    line.put_next(u64::from(p.kind));
    line.put_next(u64::from(p.field));
    line.put_next(u64::from(p.record));
    line.put_next(u64::from(p.sub));
    line.put_next(u64::from(p.offset));
    line.put(b"\n");
}
