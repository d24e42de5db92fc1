// What stands at a place of a text, and the place itself, for every `at`: past the end there is no byte, and the place is the end.
ghost use Rattle.std.specs.Prelude.{◌≡◌, ◌-◌, length, drop};
ghost use Rattle.lexeme.specs.Character.{byte};

// The byte k places on from `at`; 0 where there is none.
pub fn byte_at(s: &[u8], at: usize, k: usize) -> u8
    ensures { result ≡ byte (drop at s.now) k }
{
    s.get(at.saturating_add(k)).copied().unwrap_or(0)
}

// The byte at `at`, or 0 past the end.
pub fn first(s: &[u8], at: usize) -> u8
    ensures { result ≡ byte (drop at s.now) 0 }
{
    byte_at(s, at, 0)
}

// The offset `at`, or the end where `at` is past it.
pub fn place(s: &[u8], at: usize) -> usize
    ensures { result ≡ length s.now - length (drop at s.now) }
{
    at.min(s.len())
}

// The offset k after `at`, or the end.
pub fn ahead(s: &[u8], at: usize, k: usize) -> usize
    ensures { drop result s.now ≡ drop k (drop at s.now) }
{
    at.saturating_add(k).min(s.len())
}
