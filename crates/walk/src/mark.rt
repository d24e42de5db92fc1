// Eight bytes of a text at once: how many of them stand before the first mark.
ghost use Rattle.std.specs.Prelude.{◌≡◌, ◌+◌, ◌/◌, ◌^◌, ◌≤◌, ◌<◌, length, take, drop};
ghost use Rattle.std.specs.Int.Bits.{bit_and, bit_xor};
ghost use Rattle.std.specs.Int.Count.{count_trailing_zeros};
ghost use Rattle.walk.specs.inner.Mark.{packed, before, string_mark, bracket_mark};

// The eight bytes at `at` as one number, the first counting least. The compiler makes one load of it.
fn word_at(s: &[u8], at: usize) -> u64
    requires { at + 8 ≤ length s.now }
    ensures { result ≡ packed (take 8 (drop at s.now)) }
{
    u64::from_le_bytes([
        s[at],
        s[at + 1],
        s[at + 2],
        s[at + 3],
        s[at + 4],
        s[at + 5],
        s[at + 6],
        s[at + 7],
    ])
}

// Bit 7 of each byte tells that the byte of `w`, under that of `mask`, is not that of `value`. No sum leaves its byte where the bytes of both are below 128.
fn unlike(w: u64, mask: u64, value: u64) -> u64
    requires { (mask < 2 ^ 63) × (value < 2 ^ 63) }
    ensures { result ≡ bit_xor (bit_and w mask) value + 0x7f7f7f7f7f7f7f7f }
{
    ((w & mask) ^ value) + 0x7f7f_7f7f_7f7f_7f7f
}

// How many bytes of `w` stand below the lowest whose bit 7 is not set. Where all have it, one test tells that before any count.
fn first_clear(w: u64) -> usize
    ensures { result ≡ count_trailing_zeros 64 (bit_xor (bit_and w 0x8080808080808080) 0x8080808080808080) / 8 }
{
    let found = (w & 0x8080_8080_8080_8080) ^ 0x8080_8080_8080_8080;
    if found == 0 {
        return 8;
    }
    (found.trailing_zeros() / 8) as usize
}

// How many of the eight bytes at `at` stand before the first quotation mark or backslash.
// Shut out: a backslash in the last of them that is overlooked.
pub fn before_string_mark(s: &[u8], at: usize) -> usize
    requires { at + 8 ≤ length s.now }
    ensures { result ≡ before string_mark (take 8 (drop at s.now)) }
{
    let w = word_at(s, at);
    let quotes = unlike(w, 0x7f7f_7f7f_7f7f_7f7f, 0x2222_2222_2222_2222);
    let backslashes = unlike(w, 0x7f7f_7f7f_7f7f_7f7f, 0x5c5c_5c5c_5c5c_5c5c);
    first_clear((quotes & backslashes) | w)
}

// How many of the eight bytes at `at` stand before the first quotation mark or what may be a bracket, by the bits that all brackets have.
// Shut out: the brackets of arrays overlooked.
pub fn before_bracket_mark(s: &[u8], at: usize) -> usize
    requires { at + 8 ≤ length s.now }
    ensures { result ≡ before bracket_mark (take 8 (drop at s.now)) }
{
    let w = word_at(s, at);
    let quotes = unlike(w, 0x7f7f_7f7f_7f7f_7f7f, 0x2222_2222_2222_2222);
    let brackets = unlike(w, 0x5959_5959_5959_5959, 0x5959_5959_5959_5959);
    first_clear((quotes & brackets) | w)
}
