// The scale of odds, on plain pairs of ends.
ghost use Rattle.std.specs.Prelude.{◌≡◌};
ghost use Rattle.odds.specs.Odds.{odds, even};

use crate::ends::{Ends, UNIT};
use crate::odds::Odds;
use scales::Scale;

impl Ends {
    // A chance that is known exactly.
    pub(crate) fn even(end: u64) -> Ends
        ensures { result ≡ even end }
    {
        Ends {
            low: end,
            high: end,
        }
    }
}

impl Scale for Ends {
    ghost zero = { odds.zero };

    ghost one = { odds.one };

    ghost plus = { odds.plus };

    ghost times = { odds.times };

    fn zero() -> Ends {
        Ends::even(0)
    }

    fn one() -> Ends {
        Ends::even(UNIT)
    }

    fn plus(self, other: Ends) -> Ends {
        Ends::from(Odds::from(self).plus(Odds::from(other)))
    }

    fn times(self, other: Ends) -> Ends {
        Ends::from(Odds::from(self).times(Odds::from(other)))
    }
}
