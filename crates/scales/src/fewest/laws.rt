// The laws of fewest parts.
use super::Fewest;
use crate::{LawfulScale, Scale};

#[tactic(auto, using(crate::proofs::SameFewest::same_fewest))]
impl LawfulScale for Fewest {
    fn plus_laws() {}

    fn times_laws() {}

    fn distributes() {}

    fn absorbs() {}
}
