// Hexadecimal digits.
ghost use Rattle.std.specs.Prelude.{◌≡◌, drop};
ghost use Rattle.lexeme.specs.Character as spec;
ghost use Rattle.character.specs.inner.Digit.{digit, digit_at};

use lexeme::front::byte_at;

// A hexadecimal digit's value.
#[tactic(auto, unfolding(lexeme::specs::Character::hexadecimal, lexeme::specs::Character::hex_value, lexeme::specs::Character::within))]
pub fn hex_value(b: u32) -> Option<u32>
    ensures { result ≡ digit b }
{
    match b {
        0x30..=0x39 => Some(b - 0x30),
        0x41..=0x46 => Some(b - 0x37),
        0x61..=0x66 => Some(b - 0x57),
        _ => None,
    }
}

// The value of the digit k after `at`; where it is none, the error is k.
fn hex_at(s: &[u8], at: usize, k: usize) -> Result<u32, usize>
    ensures { result ≡ digit_at (drop at s.now) k }
{
    hex_value(u32::from(byte_at(s, at, k))).ok_or(k)
}

// The four digits from `at` on.
#[tactic(auto, unfolding(lexeme::specs::Character::quad, lexeme::specs::Character::hexadecimal))]
pub fn quad(s: &[u8], at: usize) -> Result<u32, usize>
    ensures { result ≡ spec.quad (drop at s.now) }
{
    let a = hex_at(s, at, 0)?;
    let b = hex_at(s, at, 1)?;
    let c = hex_at(s, at, 2)?;
    let d = hex_at(s, at, 3)?;
    Ok(a * 4096 + b * 256 + c * 16 + d)
}
