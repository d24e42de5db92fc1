// The verdict on a feed set: whether it is accepted, and the word that says why not.
#![tactic(auto)]

ghost use Rattle.std.specs.Prelude.{◌++◌, ◌≡◌, ◌≤◌, length, drop};
ghost use Rattle.word.specs.Form.{written_form, word_size};
ghost use Rattle.word.specs.Word.{Fits, word_of};
ghost use Rattle.schema.specs.Tables.{table_at};
ghost use Rattle.verdict.specs.Verdict.{said, number, verdict_number, buffer_of};
ghost use Rattle.cross.specs.Stage.{contents};

use crate::stages::judge;
use cross::set::FILES;
use fault::outcome::Outcome;
use word::{Parts, Word};

mod stages;

// The answer: there is no room for the word, the set is accepted, or it is not.
#[derive(Clone, Copy)]
pub enum Acceptance {
    NoRoom,
    Accepted,
    NotAccepted,
}

impl Acceptance {
    // The number of the answer.
    pub fn number(self) -> u8
        ensures { result ≡ number self }
    {
        match self {
            Acceptance::NoRoom => 2,
            Acceptance::Accepted => 0,
            Acceptance::NotAccepted => 1,
        }
    }
}

// What a word says: nothing of an accepted set.
fn parts_in(c: Outcome) -> Parts
    ensures { result ≡ said c }
{
    match c {
        Err(p) => p,
        Ok(()) => Parts::NONE,
    }
}

// Puts a word into the first bytes of a buffer.
fn put(parts: Parts, buffer: &mut [u8])
    requires { Fits written_form parts × (word_size ≤ length buffer.old) }
    ensures { buffer.new ≡ word_of written_form parts ++ drop word_size buffer.old }
{
    let word = Word::of(parts);
    buffer[..Word::SIZE].copy_from_slice(&word.bytes);
}

// By the table of a number, the verdict on a set of eight files, of which one without bytes is absent. The word stands in the first eight bytes of the buffer, and the
// rest stays; in a buffer of fewer bytes nothing is written.
// Shut out: a set refused that breaks no rule, or for another rule than its first; a word written anywhere else in the buffer.
#[tactic(auto, using(crate::proofs::Answers::shorts))]
pub fn verdict<'a>(table: u8, files: [&'a [u8]; FILES], buffer: &mut [u8]) -> Acceptance
    ensures result_value { number result ≡ verdict_number (table_at table) (contents files.entry) buffer.old }
    ensures buffer_after { buffer.new ≡ buffer_of (table_at table) (contents files.entry) buffer.old }
{
    if buffer.len() < Word::SIZE {
        return Acceptance::NoRoom;
    }
    let c = judge(table, files);
    put(parts_in(c), buffer);
    match c {
        Ok(()) => Acceptance::Accepted,
        Err(_) => Acceptance::NotAccepted,
    }
}
