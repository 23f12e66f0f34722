// The weigher of odds: a part is up with the chance of its forecast, and down with what that leaves of certainty. It takes every
// plan.
ghost use Rattle.std.specs.Prelude.{◌≡◌, min};
ghost use Rattle.odds.specs.Odds.{forecasting, unit};

use crate::ends::{Ends, UNIT};
use scales::{Scale, Weigher};

#[derive(Clone, Copy, PartialEq, Eq, Debug)]
pub struct Forecasting;

// The chance of a forecast, capped at certainty.
fn chance(forecast: u32) -> u64
    ensures { result ≡ min forecast unit }
{
    u64::from(forecast).min(UNIT)
}

impl Weigher for Forecasting {
    type Value = Ends;

    const LIMIT: usize = 512;

    ghost LIMIT = { forecasting.LIMIT };

    ghost up = { forecasting.up };

    ghost down = { forecasting.down };

    fn up(&self, forecast: u32) -> Ends {
        Ends::even(chance(forecast))
    }

    fn down(&self, forecast: u32) -> Ends {
        Ends::even(UNIT - chance(forecast))
    }
}
