// Exact decimal numbers out of the spelling of a listed number.
#![tactic(auto)]

pub mod exact;
pub mod quoted;
pub mod spelling;

// A number in the form of listed numbers: its sign, its whole part, and its fraction in parts of 10^-18. Zero has no sign.
#[derive(Clone, Copy)]
pub struct Decimal {
    pub negative: bool,
    pub whole: u64,
    pub part: u64,
}

impl Decimal {
    // The most digits before and after the point.
    pub const WHOLE_DIGITS: usize = 12;

    pub const PART_DIGITS: usize = 18;
}

// Why a text in quotation marks is no price: it is no number that a price may be, or one with more digits than the form has.
#[derive(Clone, Copy, Debug, PartialEq, Eq)]
pub enum PriceError {
    Unformed,
    NoNumber,
}

// An amount of money in ten-thousandths.
#[derive(Clone, Copy)]
pub struct Amount {
    pub negative: bool,
    pub size: u64,
}
