// The files of a set, one beside the other in the order of their numbers.
ghost use Rattle.std.specs.Prelude.{[], ◌≡◌, ◌≤◌, ◌<◌, ltb, length, get_or};
ghost use Rattle.fault.specs.Outcome.{file_count};
ghost use Rattle.cross.specs.Stage.{bytes_of, contents};
ghost use Rattle.cross.specs.inner.Judged.{lent_count};

use ids::Notes;
use word::Word;

// How many files a set has.
pub const FILES: usize = Word::FILES as usize;

// How many files' notes are lent to those who judge records: vehicle types, stations and plans, in this order; or regions first, where stations are judged.
pub const LENT: usize = 3;

// The file with this number; or its bytes from its records on, where these are handed over, and of file 7, which has none, all of them.
pub fn file_in<'a>(files: [&'a [u8]; FILES], file: u8) -> &'a [u8]
    requires { (1 ≤ file) × (file ≤ file_count) }
    ensures { result.now ≡ bytes_of (contents files.entry) file }
{
    files[file as usize - 1]
}

// Whether the file with this number is there, by its records.
pub fn is_here<'a>(records: [&'a [u8]; FILES], file: u8) -> bool
    requires { (1 ≤ file) × (file ≤ file_count) }
    ensures { result ≡ ltb 0 (length (bytes_of (contents records.entry) file)) }
{
    0 < file_in(records, file).len()
}

// The notes of a file that references name, by their place.
pub fn notes_in<'n>(notes: [&'n [u32; Notes::SIZE]; LENT], i: usize) -> &'n [u32; Notes::SIZE]
    requires { i < lent_count }
    ensures { result.now ≡ get_or (contents notes.entry) i [] }
{
    notes[i]
}
