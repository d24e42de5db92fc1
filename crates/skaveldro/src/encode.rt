// Numbers into a buffer that the caller lends: eight bytes a number, the least significant first.
ghost use Rattle.std.specs.Prelude.{◌++◌, ◌≡◌, ◌*◌, ◌≤◌, length, drop};
ghost use Rattle.notation.specs.Choice.{◌⇒◌else◌};
ghost use Rattle.skaveldro.specs.Encoding.{encoded, filled};
ghost use Rattle.skaveldro.specs.Answers.{answered, bit as bit_of, gives, part_values, signed_bits, told};

use word::Parts;

// How many numbers the parts of a word are, and how many bytes these take.
const PARTS: usize = 6;

const PARTS_SIZE: usize = 8 * PARTS;

// A truth as a number.
pub fn bit(b: bool) -> u64
    ensures { result ≡ bit_of b }
{
    b as u64
}

// A signed number in 64 bits, in two's complement.
pub fn signed_bits(v: i64) -> u64
    ensures { result ≡ signed_bits v }
{
    if v < 0 {
        return 0xffff_ffff_ffff_ffff - (-1 - v) as u64;
    }
    v as u64
}

// The parts of a word as numbers.
fn part_values(p: Parts) -> [u64; PARTS]
    ensures { result ≡ part_values p }
{
    [
        p.file as u64,
        p.kind as u64,
        p.field as u64,
        p.record as u64,
        p.sub as u64,
        p.offset as u64,
    ]
}

// Puts numbers into the first bytes of a buffer that has room for them.
fn put(values: &[u64], buffer: &mut [u8])
    requires { 8 * length values.now ≤ length buffer.old }
    ensures { buffer.new ≡ encoded values.now ++ drop (8 * length values.now) buffer.old }
{
    for i in 0..8 * values.len() {
        buffer[i] = radix::byte_of(values[i / 8], (i % 8 * 8) as u32);
    }
}

// How many of its question's values an answer of this number gives: none on a refusal.
// Shut out: a refusal that gives the zeros of its layout.
fn given(number: u8, values: usize) -> usize
    ensures { result ≡ (gives number ⇒ values else 0) }
{
    if number == 0 || number == 5 {
        values
    } else {
        0
    }
}

// Answers with a number, and with the values that it gives in the buffer, the parts of a word and then the question's own; or with 2 where these have no room.
// Shut out: 2 answered for a refusal, which needs no room; a byte past the values written.
pub fn give(number: u8, parts: Parts, rest: &[u64], buffer: &mut [u8]) -> u8
    ensures value { result ≡ told buffer.old (answered number (part_values parts ++ rest.now)) }
    ensures buffer_after { buffer.new ≡ filled buffer.old (answered number (part_values parts ++ rest.now)).values }
{
    let values = PARTS + rest.len();
    let written = given(number, values);
    let lacks_room = buffer.len() / 8 < written;
    if lacks_room {
        return 2;
    }
    if written == 0 {
        return number;
    }
    put(&part_values(parts), buffer);
    put(rest, &mut buffer[PARTS_SIZE..]);
    number
}
