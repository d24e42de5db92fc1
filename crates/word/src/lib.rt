// The verdict word: where a feed set breaks a rule first, packed into 64 bits and read back.
#![tactic(auto)]

ghost use Rattle.std.specs.Prelude.{◌≡◌};
ghost use Rattle.radix.specs.Radix.{number as number_of, digits};
ghost use Rattle.radix.specs.Fields.{bases};
ghost use Rattle.word.specs.Form.{form1};
ghost use Rattle.word.specs.Word.{Fits, values_of, parts_of, word_of, keeps, judged, answer, read_word};

pub mod kind;
pub mod refusal;

use crate::refusal::Refusal;

// What a word says. All parts of an accepting word are zero.
#[derive(Clone, Copy, Debug, PartialEq, Eq)]
pub struct Parts {
    pub file: u8,
    pub kind: u8,
    pub field: u8,
    pub record: u16,
    pub sub: u16,
    pub offset: u32,
}

#[derive(Clone, Copy, Debug, PartialEq, Eq)]
pub struct Word {
    pub bytes: [u8; 8],
}

impl Word {
    // The bytes of a word, and the number in its first field.
    pub const SIZE: usize = 8;

    pub const FORM: u64 = 1;

    // The widths of the fields in bits, most significant first.
    pub const FORM_BITS: u32 = 4;

    pub const FILE_BITS: u32 = 4;

    pub const KIND_BITS: u32 = 4;

    pub const FIELD_BITS: u32 = 8;

    pub const RECORD_BITS: u32 = 12;

    pub const SUB_BITS: u32 = 12;

    pub const OFFSET_BITS: u32 = 20;

    // The greatest numbers of a file and of a field.
    pub const FILES: u8 = 8;

    pub const FIELDS: u8 = 110;

    // The word of parts that are within their widths; whoever packs shows that from the ceilings.
    // Shut out: a width other than the layout's, so that fields run into each other; a part left out, or one written in another's place.
    pub fn of(p: Parts) -> Word
        requires { Fits form1 p }
        ensures { result.bytes ≡ word_of form1 p }
    {
        Word {
            bytes: Word::number(p).to_be_bytes(),
        }
    }

    // The word as one number, field by field.
    fn number(p: Parts) -> u64
        requires { Fits form1 p }
        ensures { result ≡ number_of (bases form1.widths) (values_of form1 p) }
    {
        let n = radix::with_field(Word::FORM, Word::FILE_BITS, u64::from(p.file));
        let n = radix::with_field(n, Word::KIND_BITS, u64::from(p.kind));
        let n = radix::with_field(n, Word::FIELD_BITS, u64::from(p.field));
        let n = radix::with_field(n, Word::RECORD_BITS, u64::from(p.record));
        let n = radix::with_field(n, Word::SUB_BITS, u64::from(p.sub));
        radix::with_field(n, Word::OFFSET_BITS, u64::from(p.offset))
    }

    // The question "read a word", of any bytes at all.
    // Shut out: a file that there is none of taken for one; a place in a file's records read beside an offset.
    pub fn read(bytes: &[u8]) -> Result<Parts, Refusal>
        ensures { answer result ≡ read_word bytes.now }
    {
        if bytes.len() != Word::SIZE {
            return Err(Refusal::NoWord);
        }
        Word::judge(radix::bytes_number(bytes))
    }

    // What the word of this number says.
    fn judge(n: u64) -> Result<Parts, Refusal>
        ensures { answer result ≡ judged form1 (digits (bases form1.widths) n) }
    {
        if radix::field_of(n, 64 - Word::FORM_BITS, Word::FORM_BITS) != Word::FORM {
            return Err(Refusal::NoWord);
        }
        let p = Word::parts(n);
        if p.keeps() {
            Ok(p)
        } else {
            Err(Refusal::NoWord)
        }
    }

    // Its fields after the first.
    fn parts(n: u64) -> Parts
        ensures { result ≡ parts_of (digits (bases form1.widths) n) }
    {
        let sub_at = Word::OFFSET_BITS;
        let record_at = sub_at + Word::SUB_BITS;
        let field_at = record_at + Word::RECORD_BITS;
        let kind_at = field_at + Word::FIELD_BITS;
        let file_at = kind_at + Word::KIND_BITS;
        Parts {
            file: radix::field_of(n, file_at, Word::FILE_BITS) as u8,
            kind: radix::field_of(n, kind_at, Word::KIND_BITS) as u8,
            field: radix::field_of(n, field_at, Word::FIELD_BITS) as u8,
            record: radix::field_of(n, record_at, Word::RECORD_BITS) as u16,
            sub: radix::field_of(n, sub_at, Word::SUB_BITS) as u16,
            offset: radix::field_of(n, 0, Word::OFFSET_BITS) as u32,
        }
    }
}

impl Parts {
    // The parts of an answer that has none.
    pub const NONE: Parts = Parts {
        file: 0,
        kind: 0,
        field: 0,
        record: 0,
        sub: 0,
        offset: 0,
    };

    // Whether the parts keep the rule of words.
    #[tactic(auto, unfolding(crate::specs::Word::keeps))]
    fn keeps(self) -> bool
        ensures { result ≡ keeps form1 self }
    {
        let located = u64::from(self.field) + u64::from(self.record) + u64::from(self.sub);
        if self.kind == 0 {
            return u64::from(self.file) + located + u64::from(self.offset) == 0;
        }
        let placed = if self.kind <= 4 {
            located == 0
        } else {
            self.offset == 0
        };
        0 < self.file && self.file <= Word::FILES && self.field <= Word::FIELDS && placed
    }
}
