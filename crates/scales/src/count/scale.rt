// Sums and products of counts.
ghost use Rattle.std.specs.Prelude.{◌≡◌};
ghost use Rattle.scales.specs.Counts.{counts};

use super::Count;
use crate::Scale;

// Any number below 2^64 is a count.
impl From<u64> for Count {
    ghost from_gives = { λ number made. made.number ≡ number };

    fn from(number: u64) -> Count {
        Count { number }
    }
}

impl Scale for Count {
    ghost zero = { counts.zero };

    ghost one = { counts.one };

    ghost plus = { counts.plus };

    ghost times = { counts.times };

    fn zero() -> Count {
        Count::from(0)
    }

    fn one() -> Count {
        Count::from(1)
    }

    fn plus(self, other: Count) -> Count {
        Count::from(self.number.wrapping_add(other.number))
    }

    fn times(self, other: Count) -> Count {
        Count::from(self.number.wrapping_mul(other.number))
    }
}
