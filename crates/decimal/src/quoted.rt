// A price in quotation marks: its decoded text is read byte by byte, and no byte of it is kept.
ghost use Rattle.std.specs.Prelude.{true, false, ◌≡◌, ◌^◌, ◌≤◌, ◌<◌, min};
ghost use Rattle.lexeme.specs.Numbers.{digit};
ghost use Rattle.text.specs.Text.{text_of};
ghost use Rattle.decimal.specs.Decimals.{price_of};
ghost use Rattle.decimal.specs.inner.Spelling.{made};
ghost use Rattle.decimal.specs.inner.Priced.{none, longer, beginning, progress, start as start_of, on_digit, on_point, step as step_of, steps, price_so, finished, Held};
ghost use Rattle.decimal.specs.inner.Formed.{IsPrice};

use crate::spelling::{Run, decimal, digit_value, is_digit};
use crate::{Decimal, PriceError};
use text::walk::{cursor_at, next_byte};

// How far a text is a number: nothing yet, a single 0, whole digits, a point and what follows it; or it is none.
#[derive(Clone, Copy)]
pub enum Phase {
    Start,
    Zero,
    Whole,
    Part,
    Lost,
}

// A text's phase, and its digits before and after the point.
#[derive(Clone, Copy)]
pub struct Progress {
    pub phase: Phase,
    pub whole: Run,
    pub part: Run,
}

// A run with one digit more. Past the most digits it only tells that there are too many.
fn lengthen(run: Run, most: usize, b: u8) -> Run
    requires { (most ≤ 18) × (digit b ≡ true) × (run.value < 10 ^ min run.count most) }
    ensures { result ≡ longer most run b }
{
    if run.count < most {
        Run {
            value: run.value * 10 + digit_value(b),
            count: run.count + 1,
        }
    } else {
        Run {
            value: run.value,
            count: most + 1,
        }
    }
}

// What a first digit begins: nothing goes before the point after a 0.
#[tactic(auto, unfolding(crate::specs::inner::Priced::beginning))]
fn begun(b: u8) -> Phase
    ensures { result ≡ beginning b }
{
    if b == b'0' { Phase::Zero } else { Phase::Whole }
}

impl Progress {
    // No digits.
    fn empty(phase: Phase) -> Progress
        ensures { result ≡ progress phase none none }
    {
        Progress {
            phase,
            whole: Run { value: 0, count: 0 },
            part: Run { value: 0, count: 0 },
        }
    }

    #[tactic(auto, unfolding(crate::specs::inner::Priced::on_digit))]
    fn digit(self, b: u8) -> Progress
        requires { Held self × (digit b ≡ true) }
        ensures { result ≡ on_digit self b self.phase }
    {
        match self.phase {
            Phase::Start => Progress {
                phase: begun(b),
                whole: lengthen(self.whole, Decimal::WHOLE_DIGITS, b),
                ..self
            },
            Phase::Whole => Progress {
                whole: lengthen(self.whole, Decimal::WHOLE_DIGITS, b),
                ..self
            },
            Phase::Part => Progress {
                part: lengthen(self.part, Decimal::PART_DIGITS, b),
                ..self
            },
            Phase::Zero | Phase::Lost => Progress::empty(Phase::Lost),
        }
    }

    #[tactic(auto, unfolding(crate::specs::inner::Priced::on_point))]
    fn point(self) -> Progress
        ensures { result ≡ on_point self self.phase }
    {
        match self.phase {
            Phase::Zero | Phase::Whole => Progress {
                phase: Phase::Part,
                ..self
            },
            Phase::Start | Phase::Part | Phase::Lost => Progress::empty(Phase::Lost),
        }
    }

    fn step(self, b: u8) -> Progress
        requires { Held self }
        ensures { result ≡ step_of self b }
    {
        if is_digit(b) {
            self.digit(b)
        } else if b == b'.' {
            self.point()
        } else {
            Progress::empty(Phase::Lost)
        }
    }

    // The number of the digits so far, no more of them behind the point than there may be.
    fn value(self) -> Decimal
        requires { Held self × (self.part.count ≤ 18) }
        ensures { result ≡ made false self.whole.value self.part.value self.part.count }
    {
        decimal(false, self.whole.value, self.part)
    }

    // The price of the digits so far.
    #[tactic(auto, unfolding(crate::specs::inner::Priced::price_so))]
    fn price(self) -> Result<Decimal, PriceError>
        requires { Held self }
        ensures { result ≡ price_so self }
    {
        if Decimal::WHOLE_DIGITS < self.whole.count || Decimal::PART_DIGITS < self.part.count {
            return Err(PriceError::Unformed);
        }
        Ok(self.value())
    }

    #[tactic(auto, unfolding(crate::specs::inner::Priced::finished))]
    fn finish(self) -> Result<Decimal, PriceError>
        requires { Held self }
        ensures { result ≡ finished self self.phase }
    {
        match self.phase {
            Phase::Start | Phase::Lost => Err(PriceError::NoNumber),
            Phase::Zero | Phase::Whole => self.price(),
            Phase::Part => {
                if self.part.count == 0 {
                    Err(PriceError::NoNumber)
                } else {
                    self.price()
                }
            }
        }
    }
}

// How far the text of a string is a number, of its bytes between the quotes as spelled.
fn progress_of(spelled: &[u8]) -> Progress
    ensures { result ≡ steps start_of (text_of spelled.now) }
{
    let mut p = Progress::empty(Phase::Start);
    let mut c = cursor_at(0);
    while let Some((b, after)) = next_byte(spelled, c) {
        p = p.step(b);
        c = after;
    }
    p
}

// The price that the text of a string stands for.
// Shut out: an escape taken for itself, so that "\u0031" is no number; a sign, an exponent or a bare point let through.
pub fn read_price(spelled: &[u8]) -> Result<Decimal, PriceError>
    ensures { result ≡ price_of (text_of spelled.now) }
{
    progress_of(spelled).finish()
}

// The price that a text stands for which is known to be one in the form.
pub fn formed_price(spelled: &[u8]) -> Decimal
    requires { IsPrice (price_of (text_of spelled.now)) }
    ensures { Ok result ≡ price_of (text_of spelled.now) }
{
    progress_of(spelled).value()
}
