// The weigher of fewest parts: a part that is up costs nothing, one that is down costs one. It takes every plan.
ghost use Rattle.scales.specs.Fewests.{minimizing};

use super::Fewest;
use crate::{Scale, Weigher};

#[derive(Clone, Copy, PartialEq, Eq, Debug)]
pub struct Minimizing;

impl Weigher for Minimizing {
    type Value = Fewest;

    const LIMIT: usize = 512;

    ghost LIMIT = { minimizing.LIMIT };

    ghost up = { minimizing.up };

    ghost down = { minimizing.down };

    fn up(&self, _forecast: u32) -> Fewest {
        Fewest::from(0)
    }

    fn down(&self, _forecast: u32) -> Fewest {
        Fewest::from(1)
    }
}
