// A listed number's spelling: a sign, at most twelve digits, a point, at most eighteen digits. Each byte is looked at once.
ghost use Rattle.std.specs.Prelude.{true, not, ◌≡◌, ◌+◌, ◌-◌, ◌*◌, ◌^◌, ◌≤◌, ◌<◌, min, eqb, length, take};
ghost use Rattle.notation.specs.Choice.{◌and◌};
ghost use Rattle.lexeme.specs.Numbers.{digit, digits};
ghost use Rattle.decimal.specs.Decimals.{behind_whole, number_of, has_point};
ghost use Rattle.decimal.specs.inner.Spelling.{run_from, made, fraction_of};
ghost use Rattle.decimal.specs.inner.Formed.{IsNumber};

use crate::Decimal;

// Digits in a row: the number that they spell, and how many they are.
#[derive(Clone, Copy)]
pub struct Run {
    pub value: u64,
    pub count: usize,
}

pub fn is_digit(b: u8) -> bool
    ensures { result ≡ digit b }
{
    b.is_ascii_digit()
}

pub fn digit_value(b: u8) -> u64
    requires { digit b ≡ true }
    ensures { result ≡ b - 0x30 }
{
    u64::from(b - b'0')
}

impl Run {
    // The digits at the front of a part that holds no more of them than a fraction has.
    fn of(s: &[u8]) -> Run
        requires { length s.now ≤ 18 }
        ensures { result ≡ run_from 0 0 s.now }
    {
        let mut value: u64 = 0;
        for (count, b) in s.iter().enumerate() {
            if !is_digit(*b) {
                return Run { value, count };
            }
            value = value * 10 + digit_value(*b);
        }
        Run {
            value,
            count: s.len(),
        }
    }

    // A run behind the point, in parts of 10^-18.
    fn scaled(self) -> u64
        requires { (self.count ≤ 18) × (self.value < 10 ^ self.count) }
        ensures { result ≡ self.value * 10 ^ (18 - self.count) }
    {
        let mut v = self.value;
        for _ in self.count..Decimal::PART_DIGITS {
            v *= 10;
        }
        v
    }
}

// A sign counts only where the number is not 0.
#[tactic(auto, using(crate::proofs::Spelled::sign_rules))]
fn minus(negative: bool, whole: u64, part: u64) -> bool
    ensures { result ≡ negative and not (eqb (whole + part) 0) }
{
    negative && (whole != 0 || part != 0)
}

pub fn decimal(negative: bool, whole: u64, run: Run) -> Decimal
    requires { (run.count ≤ 18) × (run.value < 10 ^ run.count) }
    ensures { result ≡ made negative whole run.value run.count }
{
    Decimal {
        negative: minus(negative, whole, run.value),
        whole,
        part: run.scaled(),
    }
}

// The number whose point stands before s.
fn fraction(s: &[u8], negative: bool, whole: u64) -> Option<Decimal>
    ensures { result ≡ fraction_of negative whole s.now }
{
    if Decimal::PART_DIGITS < s.len() {
        return None;
    }
    let run = Run::of(s);
    if run.count != s.len() {
        return None;
    }
    Some(decimal(negative, whole, run))
}

// The digits at the front of a number without its sign, no more of them than may stand before its point.
fn whole_run(s: &[u8]) -> Run
    ensures { result ≡ run_from 0 0 (take (min 12 (length s.now)) s.now) }
{
    Run::of(&s[..Decimal::WHOLE_DIGITS.min(s.len())])
}

// The number without its sign. A digit too many shows itself as a byte that is no point.
fn unsigned(s: &[u8], negative: bool) -> Option<Decimal>
    ensures { result ≡ behind_whole negative (digits s.now) }
{
    let run = whole_run(s);
    let at = run.count;
    if s.len() <= at {
        return Some(decimal(negative, run.value, Run { value: 0, count: 0 }));
    }
    if s[at] != b'.' {
        return None;
    }
    fraction(&s[at + 1..], negative, run.value)
}

// The number that a spelling stands for.
// Shut out: a thirteenth digit or a nineteenth decimal let through; a sign kept on 0; an exponent passed over.
pub fn read_decimal(s: &[u8]) -> Option<Decimal>
    ensures { result ≡ number_of s.now }
{
    if s.is_empty() {
        return None;
    }
    if s[0] == b'-' {
        unsigned(&s[1..], true)
    } else {
        unsigned(s, false)
    }
}

// The value of a spelling without its sign that is known to be in the form: behind its whole digits stands nothing, or a point with digits to the end.
fn formed_unsigned(s: &[u8], negative: bool) -> Decimal
    requires { IsNumber (behind_whole negative (digits s.now)) }
    ensures { Some result ≡ behind_whole negative (digits s.now) }
{
    let run = whole_run(s);
    let at = run.count;
    if s.len() <= at {
        return decimal(negative, run.value, Run { value: 0, count: 0 });
    }
    decimal(negative, run.value, Run::of(&s[at + 1..]))
}

pub fn formed_decimal(s: &[u8]) -> Decimal
    requires { IsNumber (number_of s.now) }
    ensures { Some result ≡ number_of s.now }
{
    if s[0] == b'-' {
        formed_unsigned(&s[1..], true)
    } else {
        formed_unsigned(s, false)
    }
}

// Whether a spelling has a point: no integer has one.
pub fn has_point(s: &[u8]) -> bool
    ensures { result ≡ has_point s.now }
{
    s.contains(&b'.')
}
