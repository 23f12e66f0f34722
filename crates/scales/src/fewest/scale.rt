// The smaller of two numbers of parts, and their capped sum.
ghost use Rattle.std.specs.Prelude.{◌≡◌};
ghost use Rattle.scales.specs.Fewests.{fewests, least};

use super::Fewest;
use crate::Scale;

// The number that is read as none.
const NONE: u32 = u32::MAX;

// Any number below 2^32 is a value.
impl From<u32> for Fewest {
    ghost from_gives = { λ parts made. made.parts ≡ parts };

    fn from(parts: u32) -> Fewest {
        Fewest { parts }
    }
}

impl Fewest {
    // The number, or `None` where it is read as none.
    pub fn least(&self) -> Option<u32>
        ensures { result ≡ least self.now }
    {
        (self.parts != NONE).then_some(self.parts)
    }
}

impl Scale for Fewest {
    ghost zero = { fewests.zero };

    ghost one = { fewests.one };

    ghost plus = { fewests.plus };

    ghost times = { fewests.times };

    fn zero() -> Fewest {
        Fewest::from(NONE)
    }

    fn one() -> Fewest {
        Fewest::from(0)
    }

    fn plus(self, other: Fewest) -> Fewest {
        Fewest::from(self.parts.min(other.parts))
    }

    fn times(self, other: Fewest) -> Fewest {
        Fewest::from(self.parts.saturating_add(other.parts))
    }
}
