// The eight files of a set, one behind the other in one buffer, and the verdict on them.
ghost use Rattle.std.specs.Prelude.{◌≡◌, ◌<◌, length, OnOk};
ghost use Rattle.fault.specs.Outcome.{file_count};
ghost use Rattle.folder.specs.Reading.{Decides};
ghost use Rattle.folder.specs.Places.{InOrder, file_in};
ghost use Rattle.folder.specs.Desk.{most, room, said_of, answer_of};

use crate::Refusal;
use crate::files::name_of;
use crate::reading::read_named;
use std::rt::Files;
use verdict::verdict;
use word::refusal::read_parts;
use word::{Parts, Word};

// The number of the table that files are judged by: that of version 2.3.
const TABLE: u8 = 0;

// How many files there are, and how many places they have: where each begins, and where the last one ends.
const FILES: usize = Word::FILES as usize;

const PLACES: usize = FILES + 1;

// The most bytes that the files may have together. The buffer has room for one more, by which a set that is too large is told.
const MOST: usize = 65536;

const ROOM: usize = MOST + 1;

#[derive(Drop)]
pub struct Set {
    pub bytes: [u8; ROOM],

    pub places: [usize; PLACES],

    // What the last call on a file came to: how many bytes it brought, none where it failed.
    pub last: Option<usize>,

    ghost roomy: { length bytes ≡ room },
}

impl Set {
    pub fn new() -> Set {
        Set {
            bytes: [0; ROOM],
            places: [0; PLACES],
            last: Some(0),
        }
    }

    // The answer on the current folder, by what then stands in the buffer and at which places.
    // Shut out: a verdict where the last call failed; one on other places than those that were read; a buffer that a set which is too large fits into.
    pub fn judge<R: Files + Eprint>(&mut self, rt: &R) -> Result<Parts, Refusal>
        ensures { result ≡ answer_of self.new.last self.new.bytes self.new.places }
    {
        self.read_all(rt)?;
        Ok(self.parts())
    }

    // Reads the files of the current folder in the set's order, and notes the place where each begins and the last one ends. It stops at a file that can't be
    // read, and where the buffer is full.
    // Shut out: a set read to its end where its last file can't be read; a set that fills the buffer taken as all of it.
    fn read_all<R: Files + Eprint>(&mut self, rt: &R) -> Result<(), Refusal>
        ensures decided { Decides self.new.last result }
        ensures in_order { OnOk result (InOrder file_count most self.new.places) }
    {
        self.places[0] = 0;
        self.last = Some(0);
        for i in 0..FILES {
            let from = self.places[i];
            let n = read_named(rt, name_of(i), &mut self.bytes[from..], &mut self.last)?;
            self.places[i + 1] = from + n;
        }
        Ok(())
    }

    // What the verdict's word says; it can always be read back.
    // Shut out: a file judged as another.
    fn parts(&self) -> Parts
        requires { InOrder file_count most self.now.places }
        ensures { result ≡ said_of self.now.bytes self.now.places }
    {
        let mut word = [0; Word::SIZE];
        // One by one, since the proof has a fact for each file.
        let files = [
            self.file(0),
            self.file(1),
            self.file(2),
            self.file(3),
            self.file(4),
            self.file(5),
            self.file(6),
            self.file(7),
        ];
        verdict(TABLE, files, &mut word);
        read_parts(Word::read(&word))
    }

    // The bytes of a file, counted from 0.
    fn file(&self, i: usize) -> &[u8]
        requires in_set { i < file_count }
        requires in_order { InOrder file_count most self.now.places }
        ensures { result.now ≡ file_in self.now.bytes self.now.places i }
    {
        &self.bytes[self.places[i]..self.places[i + 1]]
    }
}
