// Answers questions a line at a time: a case to a line of standard input, its answer on the same line of standard output.
#![tactic(auto)]

mod files;
mod hex;
mod lines;
mod number;
mod print;
mod questions;
mod quote_trip;
mod read_word;
mod set;
mod show;
mod zone_rule;

use std::io;
use std::io::BufWriter;

fn main(rt: HostRuntime) -> io::Result<()> {
    let mut input = rt.reader();
    let mut out = BufWriter::new(rt.alloc(), io::writer(&rt))?;
    lines::answer_all(&rt, &mut input, &mut out);
    Ok(())
}
