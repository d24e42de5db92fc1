// Records in the order of their ids: sorted once, then searched by halves. The ids stay where they stand in the bytes of their file: an order is a list of
// the records' numbers, from 0 on.
#![tactic(auto)]

pub mod id;
pub mod keys;
pub mod merge;
pub mod repeat;
pub mod sort;

// What a search for an id finds in an order: the position of a record that has it, counted from 1, or 0 where none has it; and how many reads were left of 14. The
// number is the one that the definitions of a search count with.
#[derive(Clone, Copy)]
pub struct Lookup {
    pub met: usize,
    pub left: u8,
}
