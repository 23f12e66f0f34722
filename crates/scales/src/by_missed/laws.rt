// The laws of counts by parts down.
ghost use Rattle.scales.specs.Tallies.{PartsDownAdd};

use super::ByMissed;
use crate::{LawfulScale, Scale};

impl LawfulScale for ByMissed {
    fn plus_laws() {}

    fn times_laws() {}

    fn distributes() {}

    #[tactic(auto, using(crate::proofs::SameTally::same_tally, crate::proofs::SameTally::left_factor, crate::proofs::SameTally::right_factor, crate::proofs::Convolving::zero_convolution, crate::proofs::Convolving::convolution_zero))]
    fn absorbs() {}
}

// A theorem: where one stretch of parts is put behind another, the numbers of parts down add up.
pub fn parts_down_add()
    ensures { PartsDownAdd }
{}
