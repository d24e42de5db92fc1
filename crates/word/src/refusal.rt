// Why a question has no answer: the refusals of the table of questions, with their numbers.
ghost use Rattle.std.specs.Prelude.{◌≡◌};
ghost use Rattle.word.specs.Word.{answer};
ghost use Rattle.word.specs.Refusals.{refusal_number, refusal_parts, number_of, parts_of};
ghost use Rattle.word.specs.declared.refusal.Refusal.TheVariants.{NotClean};

use crate::Parts;

#[derive(Clone, Copy, Debug, PartialEq, Eq)]
pub enum Refusal {
    // The bytes are no word.
    NoWord,
    // The ride is too long for a quote.
    TooLong,
    // The file is not clean, and this is the first rule that it breaks.
    NotClean(Parts),
    // The file has no plan of that id.
    NoPlan,
    // The point is off the map.
    OffMap,
    // No rule applies at the point.
    NoRule,
    // There is no such file.
    NoFile,
    // The file has no such record.
    NoRecord,
}

impl Refusal {
    pub fn number(self) -> u8
        ensures { result ≡ refusal_number self }
    {
        match self {
            Refusal::NoWord => 3,
            Refusal::TooLong => 4,
            Refusal::NotClean(_) => 5,
            Refusal::NoPlan => 6,
            Refusal::OffMap => 8,
            Refusal::NoRule => 9,
            Refusal::NoFile => 10,
            Refusal::NoRecord => 10,
        }
    }

    // The parts of a word that it gives.
    pub fn parts(self) -> Parts
        ensures { result ≡ refusal_parts self }
    {
        match self {
            Refusal::NotClean(parts) => parts,
            _ => Parts::NONE,
        }
    }
}

impl From<Parts> for Refusal {
    ghost from_gives = { λ parts refusal. refusal ≡ NotClean parts };

    fn from(parts: Parts) -> Refusal {
        Refusal::NotClean(parts)
    }
}

// The number of an answer: 0 where it is one, and otherwise its refusal's.
pub fn number_of<T>(answer: &Result<T, Refusal>) -> u8
    ensures { result ≡ number_of answer.now }
{
    match answer {
        Ok(_) => 0,
        Err(refusal) => refusal.number(),
    }
}

// The parts that "read a word" answers with.
pub fn read_parts(reading: Result<Parts, Refusal>) -> Parts
    ensures { result ≡ (answer reading).parts }
{
    match reading {
        Ok(parts) => parts,
        Err(refusal) => refusal.parts(),
    }
}

// The parts of a word that an answer's refusal gives.
pub fn parts_of<T>(answer: &Result<T, Refusal>) -> Parts
    ensures { result ≡ parts_of answer.now }
{
    match answer {
        Ok(_) => Parts::NONE,
        Err(refusal) => refusal.parts(),
    }
}
