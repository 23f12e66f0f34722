// A lawful scale keeps the laws of a semiring for all its values, so that a sum over patterns does not depend on how it is
// worked out. Each function promises some of the laws; its body is empty, and the proof is owed by each scale. As ghost members
// they would be no plainer: their proofs, which are long, would stand in src/ and specs/.
//
// Times need not commute.
ghost use Rattle.scales.specs.Semiring.{PlusLaws, TimesLaws, Distributes, Absorbs};

use super::Scale;

pub trait LawfulScale: Scale {
    // Plus is associative and commutative, and zero is neutral.
    fn plus_laws()
        ensures { PlusLaws Self.Scale };

    // Times is associative, and one is neutral on either side.
    fn times_laws()
        ensures { TimesLaws Self.Scale };

    // Times distributes over plus from either side.
    fn distributes()
        ensures { Distributes Self.Scale };

    // Zero times anything is zero, either way round.
    fn absorbs()
        ensures { Absorbs Self.Scale };
}
