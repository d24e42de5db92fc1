// Texts as a file spells them, compared by the bytes that they stand for. Only what is read by places, as a date is, is decoded into an array.
#![tactic(auto)]

use lexeme::Char;

pub mod ascii;
pub mod codes;
pub mod compare;
pub mod key;
pub mod measure;
pub mod ordering;
pub mod walk;

// A place among the bytes that a text stands for: what is left of a character that was begun, and where the spelling goes on.
#[derive(Clone, Copy)]
pub struct Cursor {
    pub begun: Char,
    pub at: usize,
}

// The first bytes that a text stands for from a cursor on, `count` of them, and the cursor behind them.
#[derive(Clone, Copy)]
pub struct Front {
    pub bytes: [u8; 32],
    pub count: usize,
    pub after: Cursor,
}
