// The desk's work on a folder of feeds: eight files by their standard names, read, judged as a set, and answered with one line.
#![tactic(auto)]

mod failure;
mod files;
mod line;
mod print;
mod reading;
mod set;

use set::Set;
use std::rt::Files;

// Why a set has no verdict: a file of it can't be read, or its files are too large together.
#[derive(Clone, Copy, Debug, PartialEq, Eq)]
pub enum Refusal {
    Unread,
    TooLarge,
}

// Judges the feeds in the current folder, and prints the answer. No contract can speak of files or of what is written. Proved are the answer on what stands in
// the buffer, that there is none where the last call on a file failed, the names that are opened and the bytes that are written.
pub fn judge<R: Files + Print + Eprint>(rt: &R) {
    let mut set = Set::new();
    let answer = set.judge(rt);
    print::answer(rt, answer);
}
