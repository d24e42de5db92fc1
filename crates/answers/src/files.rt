// The eight files of a question.
use crate::hex;
use word::Word;

// How many files a question has.
pub const FILES: usize = Word::FILES as usize;

// A struct, since an `Option` of an array of slices gets no generated proof.
#[derive(Clone, Copy)]
pub struct Files<'a> {
    pub files: [&'a [u8]; FILES],
}

// The files that the words spell, put one behind the other into the room.
pub fn decode<'a>(words: &[&[u8]], room: &'a mut [u8]) -> Option<Files<'a>> {
    if words.len() != FILES {
        return None;
    }
    let mut files: [&'a [u8]; FILES] = [&[]; FILES];
    let mut room = room;
    for (file, word) in files.iter_mut().zip(words) {
        let (bytes, rest) = hex::decode(word, room)?;
        *file = bytes;
        room = rest;
    }
    Some(Files { files })
}
