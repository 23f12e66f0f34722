// The weigher of counts: either way a part weighs one, so a sum of patterns is their number. At 63 open parts or fewer the
// number of all patterns is below 2^64, and no count has wrapped.
ghost use Rattle.scales.specs.Counts.{counting};

use super::Count;
use crate::{Scale, Weigher};

#[derive(Clone, Copy, PartialEq, Eq, Debug)]
pub struct Counting;

impl Weigher for Counting {
    type Value = Count;

    const LIMIT: usize = 63;

    ghost LIMIT = { counting.LIMIT };

    ghost up = { counting.up };

    ghost down = { counting.down };

    fn up(&self, _forecast: u32) -> Count {
        Count::one()
    }

    // Either way alike.
    fn down(&self, forecast: u32) -> Count {
        self.up(forecast)
    }
}
