// The values that rules give, one rule after the other.
ghost use Rattle.std.specs.Prelude.{◌≡◌};
ghost use Rattle.zone.specs.inner.Values.{nothing, or_given, is_full, ruling_by};

use crate::{Given, Rule};
use word::refusal::Refusal;

impl Given {
    // What no rule gives.
    pub fn nothing() -> Given
        ensures { result ≡ nothing }
    {
        Given {
            any: false,
            ride: None,
            through: None,
            speed: None,
            parking: None,
        }
    }

    // What these rules give, and where they give nothing what later ones do.
    // Shut out: a later rule's value in place of an earlier one's; a speed that only the first rule can give.
    #[tactic(auto, unfolding(crate::specs::inner::Values::or_given))]
    pub fn or(self, later: Given) -> Given
        ensures { result ≡ or_given self later }
    {
        Given {
            any: self.any || later.any,
            ride: self.ride.or(later.ride),
            through: self.through.or(later.through),
            speed: self.speed.or(later.speed),
            parking: self.parking.or(later.parking),
        }
    }

    // Whether all values are given, so that no later rule counts.
    #[tactic(auto, unfolding(crate::specs::inner::Values::is_full))]
    pub fn is_full(self) -> bool
        ensures { result ≡ is_full self }
    {
        self.any
            && self.ride.is_some()
            && self.through.is_some()
            && self.speed.is_some()
            && self.parking.is_some()
    }

    // The answer that these rules make.
    #[tactic(auto, unfolding(crate::specs::inner::Values::ruling_by))]
    pub fn ruling(self) -> Result<Rule, Refusal>
        ensures { result ≡ ruling_by self }
    {
        if !self.any {
            return Err(Refusal::NoRule);
        }
        Ok(Rule {
            ride: self.ride.unwrap_or(false),
            through: self.through.unwrap_or(false),
            speed: self.speed,
            parking: self.parking,
        })
    }
}
