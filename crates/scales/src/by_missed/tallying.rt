// The weigher of counts by parts down: a part that is up is one pattern with none down, a part that is down one pattern with one
// down. At most 63 parts, so that no pattern is cut off and no count has wrapped.
ghost use Rattle.scales.specs.Tallies.{tallying};

use super::ByMissed;
use crate::{Scale, Weigher};

#[derive(Clone, Copy, PartialEq, Eq, Debug)]
pub struct Tallying;

impl Weigher for Tallying {
    type Value = ByMissed;

    const LIMIT: usize = 63;

    ghost LIMIT = { tallying.LIMIT };

    ghost up = { tallying.up };

    ghost down = { tallying.down };

    fn up(&self, _forecast: u32) -> ByMissed {
        ByMissed::one()
    }

    fn down(&self, _forecast: u32) -> ByMissed {
        ByMissed::one_with(1)
    }
}
