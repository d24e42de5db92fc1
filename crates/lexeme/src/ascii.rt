// Sorts of bytes.
ghost use Rattle.std.specs.Prelude.{◌≡◌};
ghost use Rattle.lexeme.specs.Numbers.{digit, either};
ghost use Rattle.lexeme.specs.Tokens.{blank};

#[tactic(auto, unfolding(crate::specs::Numbers::either))]
pub fn is_either(b: u8, x: u8, y: u8) -> bool
    ensures { result ≡ either x y b }
{
    b == x || b == y
}

// By two tests of `is_either`: the compiler makes one comparison of it for most bytes, where it makes three of a pattern.
#[tactic(auto, unfolding(crate::specs::Tokens::blank))]
pub fn is_blank(b: u8) -> bool
    ensures { result ≡ blank b }
{
    is_either(b, b' ', b'\t') || is_either(b, b'\n', b'\r')
}

#[tactic(auto, unfolding(crate::specs::Numbers::digit, crate::specs::Character::within))]
pub fn is_digit(b: u8) -> bool
    ensures { result ≡ digit b }
{
    b.is_ascii_digit()
}
