// The field table in lines: the rows of all files in one list, each with the rows of the object inside it right behind it.
#![tactic(auto)]

ghost use Rattle.std.specs.Prelude.{◌≡◌, ◌+◌, ◌*◌, length, get_or};

pub mod lines;
pub mod names;
pub mod sheets;
mod spelling;
mod table;
pub mod ways;
pub mod words;

// Part of a list: its first place, and how many places.
#[derive(Clone, Copy, Debug, PartialEq, Eq)]
pub struct Range {
    pub first: usize,
    pub count: usize,
}

impl Range {
    // The range at a place, where firsts and counts stand in two columns; past their end the empty one.
    fn of_columns(firsts: &[u8], counts: &[u8], i: usize) -> Range
        requires { length firsts.now ≡ length counts.now }
        ensures { result ≡ record { first = get_or firsts.now i 0; count = get_or counts.now i 0 } }
    {
        if firsts.len() <= i {
            return Range { first: 0, count: 0 };
        }
        Range {
            first: usize::from(firsts[i]),
            count: usize::from(counts[i]),
        }
    }
}

// The first bytes of a text: as many of the array as `count` tells.
#[derive(Clone, Copy, Debug, PartialEq, Eq)]
pub struct Prefix {
    pub bytes: [u8; 32],
    pub count: usize,
}

// What the table says of one member: its number in the word, whether it must be there, what it may be, what the items of an array may be and
// how they are numbered and how many there may be, and how many lines stand inside.
// The letters are not decoded to enums: other crates' contracts speak of a line by the bytes of the table.
#[derive(Clone, Copy, Debug, PartialEq, Eq)]
pub struct Line {
    pub field: u8,
    pub need: u8,
    pub value: u8,
    pub item: u8,
    pub numbering: u8,
    pub most: u16,
    pub inside: u8,
}

impl Line {
    // Whether a member must be there.
    pub const REQUIRED: u8 = b'R';

    pub const OPTIONAL: u8 = b'O';

    pub const CONDITIONAL: u8 = b'C';

    // What a value, or an item, may be.
    pub const TIMESTAMP: u8 = b'T';

    pub const INTEGER: u8 = b'N';

    pub const AMOUNT: u8 = b'F';

    pub const PORTION: u8 = b'%';

    pub const LATITUDE: u8 = b'y';

    pub const LONGITUDE: u8 = b'x';

    pub const ORDINATE: u8 = b'z';

    pub const MONEY: u8 = b'm';

    pub const PRICE: u8 = b'p';

    pub const BOOLEAN: u8 = b'B';

    pub const TEXT: u8 = b'S';

    pub const ID: u8 = b'i';

    pub const CURRENCY: u8 = b'c';

    pub const DATE: u8 = b'd';

    pub const EXACTLY: u8 = b'=';

    pub const WORD: u8 = b'w';

    pub const ARRAY: u8 = b'[';

    pub const OBJECT: u8 = b'{';

    // What an item's number is.
    pub const RECORDS: u8 = b'r';

    pub const SUBS: u8 = b's';

    pub const OUTER: u8 = b'o';

    pub const POSITIONS: u8 = b'p';
}

// The number that two bytes are, the lower one first.
fn two_bytes(low: u8, high: u8) -> u16
    ensures { result ≡ low + 256 * high }
{
    u16::from(low) + 256 * u16::from(high)
}
