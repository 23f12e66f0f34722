// The laws of counts.
use super::Count;
use crate::{LawfulScale, Scale};

#[tactic(auto, using(crate::proofs::SameCount::laws))]
impl LawfulScale for Count {
    fn plus_laws() {}

    fn times_laws() {}

    fn distributes() {}

    fn absorbs() {}
}
