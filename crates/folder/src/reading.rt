// One file, opened by name and read into a buffer.
//
// No contract can speak of what the system answers. So what the last call on a file came to is lent along, in `last`: how many bytes it brought, none where
// it failed. What is taken of the file is promised by it.
ghost use Rattle.std.specs.Prelude.{◌≡◌, ◌<◌, length, IfOk};
ghost use Rattle.folder.specs.Reading.{opening_of, reading_of, Brings, Decides};

use crate::Refusal;
use crate::failure::fail;
use std::fs;
use std::io::{Error, Read};
use std::rt::Files;

// The number of the error of opening a name that no file has.
const NO_SUCH_FILE: i32 = 2;

// Puts a file's bytes at the start of the room, and answers how many there are. A file that does not exist has none; of one that can't be opened or read a line
// on standard error says why.
pub fn read_named<R: Files + Eprint>(
    rt: &R,
    name: &str,
    room: &mut [u8],
    last: &mut Option<usize>,
) -> Result<usize, Refusal>
    requires { 0 < length room.old }
    ensures decided { Decides last.new result }
    ensures within { IfOk result (λ n. n < length room.old) }
{
    let opened = fs::open(rt, name);
    *last = opening(&opened);
    match opened {
        Ok(mut file) => read_to_end(rt, &mut file, name, room, last),
        Err(_) if last.is_some() => Ok(0),
        Err(error) => {
            fail(rt, name, error);
            Err(Refusal::Unread)
        }
    }
}

// One read may bring less than there is, so the file is read until a read brings nothing, or there is no room.
// Shut out: a read that failed taken for the file's end; a full buffer taken for it.
fn read_to_end<R: Eprint, F: Read>(
    rt: &R,
    file: &mut F,
    name: &str,
    room: &mut [u8],
    last: &mut Option<usize>,
) -> Result<usize, Refusal>
    requires { 0 < length room.old }
    ensures decided { Decides last.new result }
    ensures within { IfOk result (λ n. n < length room.old) }
{
    let mut to = 0;
    while to < room.len() {
        match read_some(rt, file, name, &mut room[to..], last)? {
            0 => return Ok(to),
            n => to += n,
        }
    }
    Err(Refusal::TooLarge)
}

// One read: how many bytes it brought, 0 at the file's end. Of one that fails a line on standard error says why.
fn read_some<R: Eprint, F: Read>(
    rt: &R,
    file: &mut F,
    name: &str,
    room: &mut [u8],
    last: &mut Option<usize>,
) -> Result<usize, Refusal>
    ensures { Brings (length room.old) last.new result }
{
    let got = file.read(room);
    *last = reading(&got);
    match got {
        Ok(n) => Ok(n),
        Err(error) => {
            fail(rt, name, error);
            Err(Refusal::Unread)
        }
    }
}

// What a read came to.
// Shut out: a read that failed taken for the file's end; one that ended the file taken for a failure.
fn reading(got: &Result<usize, Error>) -> Option<usize>
    ensures { result ≡ reading_of got.now }
{
    got.as_ref().ok().copied()
}

// What an opening came to, told like a read: a file that is open may bring bytes, one that does not exist brings none.
// Shut out: a file that is there and can't be opened taken as absent.
fn opening<F>(opened: &Result<F, Error>) -> Option<usize>
    ensures { result ≡ opening_of opened.now }
{
    match opened {
        Ok(_) => Some(1),
        Err(error) if error.raw_os_error() == Some(NO_SUCH_FILE) => Some(0),
        Err(_) => None,
    }
}
