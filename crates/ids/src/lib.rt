// The ids of a file's own records: noted once and put in order, so that the record of an id is found by looking at a handful of them.
#![tactic(auto)]

use limits::Limits;

pub mod columns;
pub mod gather;
pub mod id;
pub mod lookup;
pub mod note;
pub mod order;
pub mod references;
pub mod search;

// The notes of a file are an array of `SIZE` numbers: three columns with an entry for each record, how many records there are, and how many bytes all their
// ids begin with alike. Records are entered by their numbers; once they are in order, the columns stand in the order of the ids.
#[derive(Clone, Copy, Debug, PartialEq, Eq)]
pub struct Notes {
    pub entries: u16,
}

// Where the id of a record is: the place in the record where its member is looked for, and the one where its text begins, if it has one.
#[derive(Clone, Copy, Debug, PartialEq, Eq)]
pub struct IdText {
    pub member: usize,
    pub text: Option<usize>,
}

impl Notes {
    // How many entries a column has: one for each record of a file. The first column has the places of the ids' texts while records are entered, and the keys
    // of the ids once they are in order.
    pub const ENTRIES: usize = Limits::RECORDS as usize;

    // Where the other columns begin: where records start; and twice the place in the record where the member of its id is looked for, with 1 more where the
    // record passes the test that its file's references are asked about.
    pub const STARTS: usize = Notes::ENTRIES;

    pub const MEMBERS: usize = 2 * Notes::ENTRIES;

    // Where the number of records stands, and that of the bytes that all ids begin with alike.
    pub const COUNT: usize = 3 * Notes::ENTRIES;

    pub const SKIP: usize = 3 * Notes::ENTRIES + 1;

    pub const SIZE: usize = 3 * Notes::ENTRIES + 2;
}
