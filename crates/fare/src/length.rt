// A ride's length in whole minutes and whole kilometres, the rest dropped.
ghost use Rattle.std.specs.Prelude.{◌≡◌};
ghost use Rattle.fare.specs.Charges.{minutes_of, kilometres_of};

use crate::{Kilometres, Minutes};

impl Minutes {
    // Shut out: rounding up to the next minute.
    pub fn of_seconds(seconds: u64) -> Minutes
        ensures { result ≡ minutes_of seconds }
    {
        Minutes {
            count: seconds / 60,
        }
    }
}

impl Kilometres {
    pub fn of_metres(metres: u64) -> Kilometres
        ensures { result ≡ kilometres_of metres }
    {
        Kilometres {
            count: metres / 1000,
        }
    }
}
