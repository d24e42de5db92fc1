// The lexemes of a JSON text.
#![tactic(auto)]

pub mod ascii;
pub mod blank;
pub mod class;
pub mod front;
pub mod literal;
pub mod number;

// The first fault of a text: its kind, and the offset at which it stands. Fields lie in the order written, and the offset comes first, where a reader's Result
// has its other answer, the end of a value: behind the kind's byte each end would be written in pieces and read back whole, and the processor would wait for
// it. It waits for a Result, too, that a reader hands on as it came from another which is called and not inlined: what lies behind the tag was just written
// by eight bytes and eight, and is read by sixteen. There the end is handed on by `?` and `Ok`.
#[derive(Clone, Copy, Debug, PartialEq, Eq)]
pub struct SyntaxError {
    pub offset: usize,
    pub kind: u8,
}

// A character of a string: its UTF-8 bytes, of which the first `len` count, and how many bytes its spelling has after the first.
#[derive(Clone, Copy, Debug, PartialEq, Eq)]
pub struct Char {
    pub b0: u8,
    pub b1: u8,
    pub b2: u8,
    pub b3: u8,
    pub len: usize,
    pub more: usize,
}

// What stands at a place inside a string: the closing quote, a character, or a fault with its kind and its distance from the place.
#[derive(Clone, Copy, Debug, PartialEq, Eq)]
pub enum Next {
    Quote,
    Character(Char),
    Fault(u8, usize),
}
