// The Gregorian calendar, years 0000 to 9999: which dates are real, and how many days come before a year.
#![tactic(auto)]

ghost use Rattle.std.specs.Prelude.{◌≡◌};
ghost use Rattle.calendar.specs.Calendar.{leap, month_days, real_date, days_before};

pub mod written;

// A year, a month and a day, whether there is such a day or not.
#[derive(Clone, Copy, Debug, PartialEq, Eq, PartialOrd, Ord)]
pub struct Date {
    pub year: u16,
    pub month: u8,
    pub day: u8,
}

// The year is a leap year.
// Shut out: 1900 taken for one; 2000 not.
pub fn is_leap(year: u16) -> bool
    ensures { result ≡ leap year }
{
    if year % 100 == 0 {
        year % 400 == 0
    } else {
        year % 4 == 0
    }
}

// The days of the months by their numbers, in a year that is no leap year. There is no month 0.
const MONTHS: [u8; 13] = [0, 31, 28, 31, 30, 31, 30, 31, 31, 30, 31, 30, 31];

// How many days a month has: none where the number is no month's.
pub fn month_days(year: u16, month: u8) -> u8
    ensures { result ≡ month_days year month }
{
    if month == 2 && is_leap(year) {
        29
    } else {
        MONTHS.get(usize::from(month)).copied().unwrap_or(0)
    }
}

impl Date {
    // There is such a day, in a year of four digits.
    // Shut out: day 0.
    pub fn is_real(self) -> bool
        ensures { result ≡ real_date self.year self.month self.day }
    {
        self.year <= 9_999 && (1..=month_days(self.year, self.month)).contains(&self.day)
    }
}

// The days from 0000-01-01 to the first day of a year.
pub fn days_before(year: u16) -> u32
    ensures { result ≡ days_before year }
{
    let y = u32::from(year);
    365 * y + y.div_ceil(4) + y.div_ceil(400) - y.div_ceil(100)
}
