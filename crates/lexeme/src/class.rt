// The class of every byte, for JSON and UTF-8 alike: one table tells what a byte says inside a string and outside.
ghost use Rattle.std.specs.Prelude.{◌≡◌};
ghost use Rattle.lexeme.specs.inner.Class.{blank_of, Classed, Classifies};

// The classes, numbered so that one test tells what a scanner asks most: those below QUOTE stand for themselves inside a string, and the odd ones
// are blanks. They stay numbers, since those tests are one comparison and one bit for each byte of a file.
#[derive(Clone, Copy)]
pub struct Class {
    pub number: u8,
}

impl Class {
    pub const PLAIN: u8 = 0;

    pub const SPACE: u8 = 1;

    // A digit or the minus.
    pub const NUMBER: u8 = 2;

    pub const ARRAY: u8 = 4;

    pub const OBJECT: u8 = 6;

    pub const LETTER_T: u8 = 8;

    pub const LETTER_F: u8 = 10;

    pub const LETTER_N: u8 = 12;

    pub const QUOTE: u8 = 14;

    pub const BACKSLASH: u8 = 16;

    // Tab, line feed and carriage return: blank between values, wrong inside a string.
    pub const LINE: u8 = 15;

    // What no character has, but in an escape: the other control characters, and bytes that UTF-8 has not.
    pub const WRONG: u8 = 18;

    // First bytes of UTF-8, by the length of the form and, where the second byte is narrowed, by name.
    pub const TWO: u8 = 20;

    pub const THREE_E0: u8 = 22;

    pub const THREE: u8 = 24;

    pub const THREE_ED: u8 = 26;

    pub const FOUR_F0: u8 = 28;

    pub const FOUR: u8 = 30;

    pub const FOUR_F4: u8 = 32;

    // Bytes of UTF-8 after the first, 80 to 8F, 90 to 9F and A0 to BF: some first bytes narrow the second to one or two of these.
    pub const TAIL_80: u8 = 34;

    pub const TAIL_90: u8 = 36;

    pub const TAIL_A0: u8 = 38;
}

// The class of each byte; every sixteenth is marked.
const CLASS: [u8; 256] = [
    // 0x00
    Class::WRONG,
    Class::WRONG,
    Class::WRONG,
    Class::WRONG,
    Class::WRONG,
    Class::WRONG,
    Class::WRONG,
    Class::WRONG,
    Class::WRONG,
    Class::LINE,
    Class::LINE,
    Class::WRONG,
    Class::WRONG,
    Class::LINE,
    Class::WRONG,
    Class::WRONG,
    // 0x10
    Class::WRONG,
    Class::WRONG,
    Class::WRONG,
    Class::WRONG,
    Class::WRONG,
    Class::WRONG,
    Class::WRONG,
    Class::WRONG,
    Class::WRONG,
    Class::WRONG,
    Class::WRONG,
    Class::WRONG,
    Class::WRONG,
    Class::WRONG,
    Class::WRONG,
    Class::WRONG,
    // 0x20
    Class::SPACE,
    Class::PLAIN,
    Class::QUOTE,
    Class::PLAIN,
    Class::PLAIN,
    Class::PLAIN,
    Class::PLAIN,
    Class::PLAIN,
    Class::PLAIN,
    Class::PLAIN,
    Class::PLAIN,
    Class::PLAIN,
    Class::PLAIN,
    Class::NUMBER,
    Class::PLAIN,
    Class::PLAIN,
    // 0x30
    Class::NUMBER,
    Class::NUMBER,
    Class::NUMBER,
    Class::NUMBER,
    Class::NUMBER,
    Class::NUMBER,
    Class::NUMBER,
    Class::NUMBER,
    Class::NUMBER,
    Class::NUMBER,
    Class::PLAIN,
    Class::PLAIN,
    Class::PLAIN,
    Class::PLAIN,
    Class::PLAIN,
    Class::PLAIN,
    // 0x40
    Class::PLAIN,
    Class::PLAIN,
    Class::PLAIN,
    Class::PLAIN,
    Class::PLAIN,
    Class::PLAIN,
    Class::PLAIN,
    Class::PLAIN,
    Class::PLAIN,
    Class::PLAIN,
    Class::PLAIN,
    Class::PLAIN,
    Class::PLAIN,
    Class::PLAIN,
    Class::PLAIN,
    Class::PLAIN,
    // 0x50
    Class::PLAIN,
    Class::PLAIN,
    Class::PLAIN,
    Class::PLAIN,
    Class::PLAIN,
    Class::PLAIN,
    Class::PLAIN,
    Class::PLAIN,
    Class::PLAIN,
    Class::PLAIN,
    Class::PLAIN,
    Class::ARRAY,
    Class::BACKSLASH,
    Class::PLAIN,
    Class::PLAIN,
    Class::PLAIN,
    // 0x60
    Class::PLAIN,
    Class::PLAIN,
    Class::PLAIN,
    Class::PLAIN,
    Class::PLAIN,
    Class::PLAIN,
    Class::LETTER_F,
    Class::PLAIN,
    Class::PLAIN,
    Class::PLAIN,
    Class::PLAIN,
    Class::PLAIN,
    Class::PLAIN,
    Class::PLAIN,
    Class::LETTER_N,
    Class::PLAIN,
    // 0x70
    Class::PLAIN,
    Class::PLAIN,
    Class::PLAIN,
    Class::PLAIN,
    Class::LETTER_T,
    Class::PLAIN,
    Class::PLAIN,
    Class::PLAIN,
    Class::PLAIN,
    Class::PLAIN,
    Class::PLAIN,
    Class::OBJECT,
    Class::PLAIN,
    Class::PLAIN,
    Class::PLAIN,
    Class::PLAIN,
    // 0x80
    Class::TAIL_80,
    Class::TAIL_80,
    Class::TAIL_80,
    Class::TAIL_80,
    Class::TAIL_80,
    Class::TAIL_80,
    Class::TAIL_80,
    Class::TAIL_80,
    Class::TAIL_80,
    Class::TAIL_80,
    Class::TAIL_80,
    Class::TAIL_80,
    Class::TAIL_80,
    Class::TAIL_80,
    Class::TAIL_80,
    Class::TAIL_80,
    // 0x90
    Class::TAIL_90,
    Class::TAIL_90,
    Class::TAIL_90,
    Class::TAIL_90,
    Class::TAIL_90,
    Class::TAIL_90,
    Class::TAIL_90,
    Class::TAIL_90,
    Class::TAIL_90,
    Class::TAIL_90,
    Class::TAIL_90,
    Class::TAIL_90,
    Class::TAIL_90,
    Class::TAIL_90,
    Class::TAIL_90,
    Class::TAIL_90,
    // 0xa0
    Class::TAIL_A0,
    Class::TAIL_A0,
    Class::TAIL_A0,
    Class::TAIL_A0,
    Class::TAIL_A0,
    Class::TAIL_A0,
    Class::TAIL_A0,
    Class::TAIL_A0,
    Class::TAIL_A0,
    Class::TAIL_A0,
    Class::TAIL_A0,
    Class::TAIL_A0,
    Class::TAIL_A0,
    Class::TAIL_A0,
    Class::TAIL_A0,
    Class::TAIL_A0,
    // 0xb0
    Class::TAIL_A0,
    Class::TAIL_A0,
    Class::TAIL_A0,
    Class::TAIL_A0,
    Class::TAIL_A0,
    Class::TAIL_A0,
    Class::TAIL_A0,
    Class::TAIL_A0,
    Class::TAIL_A0,
    Class::TAIL_A0,
    Class::TAIL_A0,
    Class::TAIL_A0,
    Class::TAIL_A0,
    Class::TAIL_A0,
    Class::TAIL_A0,
    Class::TAIL_A0,
    // 0xc0
    Class::WRONG,
    Class::WRONG,
    Class::TWO,
    Class::TWO,
    Class::TWO,
    Class::TWO,
    Class::TWO,
    Class::TWO,
    Class::TWO,
    Class::TWO,
    Class::TWO,
    Class::TWO,
    Class::TWO,
    Class::TWO,
    Class::TWO,
    Class::TWO,
    // 0xd0
    Class::TWO,
    Class::TWO,
    Class::TWO,
    Class::TWO,
    Class::TWO,
    Class::TWO,
    Class::TWO,
    Class::TWO,
    Class::TWO,
    Class::TWO,
    Class::TWO,
    Class::TWO,
    Class::TWO,
    Class::TWO,
    Class::TWO,
    Class::TWO,
    // 0xe0
    Class::THREE_E0,
    Class::THREE,
    Class::THREE,
    Class::THREE,
    Class::THREE,
    Class::THREE,
    Class::THREE,
    Class::THREE,
    Class::THREE,
    Class::THREE,
    Class::THREE,
    Class::THREE,
    Class::THREE,
    Class::THREE_ED,
    Class::THREE,
    Class::THREE,
    // 0xf0
    Class::FOUR_F0,
    Class::FOUR,
    Class::FOUR,
    Class::FOUR,
    Class::FOUR_F4,
    Class::WRONG,
    Class::WRONG,
    Class::WRONG,
    Class::WRONG,
    Class::WRONG,
    Class::WRONG,
    Class::WRONG,
    Class::WRONG,
    Class::WRONG,
    Class::WRONG,
    Class::WRONG,
];

// The table itself: a constant is laid out anew wherever it is named, so a scanner takes it once and lends it.
// Shut out: ED classed with the other first bytes of three, so that surrogates pass for UTF-8; a line feed that is plain inside a string.
pub fn class_table() -> [u8; 256]
    ensures { Classifies result }
{
    CLASS
}

// The class of a byte, by the table that is lent.
pub fn class_by(table: &[u8; 256], b: u8) -> u8
    requires { Classifies table.now }
    ensures { Classed b result }
{
    table[usize::from(b)]
}

// Whether a class is that of a blank.
#[tactic(auto, unfolding(crate::specs::inner::Class::blank_of))]
pub fn is_blank_class(class: u8) -> bool
    ensures { result ≡ blank_of class }
{
    class % 2 == 1
}
