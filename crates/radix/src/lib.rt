// Numbers as digits over any bases, and the digits that are bytes.
#![tactic(auto)]

ghost use Rattle.std.specs.Prelude.{◌≡◌, ◌+◌, ◌*◌, ◌/◌, ◌%◌, ◌^◌, ◌≤◌, ◌<◌, length};
ghost use Rattle.radix.specs.Fields.{bytes_number};

// What a byte string of up to eight bytes is worth as a number, its first byte counting most.
// Shut out: the first byte left out; the last byte counting most.
pub fn bytes_number(s: &[u8]) -> u64
    requires { length s.now ≤ 8 }
    ensures { result ≡ bytes_number s.now }
{
    let mut n = 0;
    for b in s {
        n = n * 256 + u64::from(*b);
    }
    n
}

// The number with one field more behind it. The fields of a word go in one by one.
pub fn with_field(n: u64, width: u32, value: u64) -> u64
    requires { (width < 64) × (n * 2 ^ width + value < 2 ^ 64) }
    ensures { result ≡ n * 2 ^ width + value }
{
    (n << width) + value
}

// The field of this width above the lower bits of a number.
// Shut out: a field taken above as many bits as it is wide; one with bits of the field before it.
pub fn field_of(n: u64, lower: u32, width: u32) -> u64
    requires { (lower < 64) × (width < 64) }
    ensures { result ≡ n / 2 ^ lower % 2 ^ width }
{
    (n >> lower) % (1 << width)
}

// The field of this width above the lower bits of a byte string, however long it is: the bytes that hold the field are at most eight.
// Shut out: bytes that end before the field does; a field with bits of the one before it.
pub fn field_in(s: &[u8], lower: usize, width: u32) -> u64
    requires { (width ≤ 57) × (lower + width ≤ length s.now * 8) }
    ensures { result ≡ bytes_number s.now / 2 ^ lower % 2 ^ width }
{
    let end = s.len() - lower / 8;
    let start = end - (lower % 8 + width as usize).div_ceil(8);
    field_of(bytes_number(&s[start..end]), (lower % 8) as u32, width)
}

// The byte above the lower bits of a number.
pub fn byte_of(n: u64, lower: u32) -> u8
    requires { lower < 64 }
    ensures { result ≡ n / 2 ^ lower % 2 ^ 8 }
{
    field_of(n, lower, 8) as u8
}
