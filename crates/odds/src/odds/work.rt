// Sums and products of odds.
ghost use Rattle.std.specs.Prelude.{◌≡◌};
ghost use Rattle.odds.specs.Odds.{pair, reading, sum, product};

use super::Odds;
use crate::ends::{Ends, UNIT};

// The odds that a plain pair is read as: 0 to U where its ends are none that odds can have.
impl From<Ends> for Odds {
    ghost from_gives = { λ held read. pair read ≡ reading held };

    fn from(held: Ends) -> Odds {
        if held.low <= held.high && held.high <= UNIT {
            Odds {
                low: held.low,
                high: held.high,
            }
        } else {
            Odds { low: 0, high: UNIT }
        }
    }
}

// The two ends as a plain pair.
impl From<Odds> for Ends {
    ghost from_gives = { λ odds written. written ≡ pair odds };

    fn from(odds: Odds) -> Ends {
        Ends {
            low: odds.low,
            high: odds.high,
        }
    }
}

impl Odds {
    // Adds the ends, each capped at U.
    pub fn plus(self, other: Odds) -> Odds
        ensures { pair result ≡ sum (pair self) (pair other) }
    {
        Odds {
            low: (self.low + other.low).min(UNIT),
            high: (self.high + other.high).min(UNIT),
        }
    }

    // Multiplies the ends, the low one rounded down and the high one up.
    pub fn times(self, other: Odds) -> Odds
        ensures { pair result ≡ product (pair self) (pair other) }
    {
        Odds {
            low: self.low * other.low / UNIT,
            high: (self.high * other.high).div_ceil(UNIT),
        }
    }
}
