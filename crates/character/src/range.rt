// Numbers and classes between two bounds.
ghost use Rattle.std.specs.Prelude.{◌≡◌, drop};
ghost use Rattle.lexeme.specs.Character as spec;
ghost use Rattle.lexeme.specs.inner.Class.{least_of, most_of, Tails, Classifies};

use lexeme::class::class_by;
use lexeme::front::byte_at;

// Whether b lies between lo and hi.
#[tactic(auto, unfolding(lexeme::specs::Character::within))]
pub fn within(lo: u32, hi: u32, b: u32) -> bool
    ensures { result ≡ spec.within lo hi b }
{
    lo <= b && b <= hi
}

// Whether the byte at k places from `at` is one of the tail classes from lo to hi.
pub fn tail_within(table: &[u8; 256], s: &[u8], at: usize, k: usize, lo: u8, hi: u8) -> bool
    requires { Classifies table.now × Tails lo hi }
    ensures { result ≡ spec.within (least_of lo) (most_of hi) (spec.byte (drop at s.now) k) }
{
    let class = class_by(table, byte_at(s, at, k));
    lo <= class && class <= hi
}
