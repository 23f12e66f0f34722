// Why a record is not answered by what it asks for.
ghost use Rattle.std.specs.Prelude.{◌≡◌};
ghost use Rattle.replay.specs.declared.unanswered.Unanswered.TheVariants.{Declined, Memory};

use refusals::Refusal;
use std::alloc::AllocError;

#[derive(Clone, Copy, Debug)]
pub(super) enum Unanswered {
    // It is declined.
    Declined(Refusal),
    // Memory has run out.
    Memory(AllocError),
}

// A call or an evaluation declines.
impl From<Refusal> for Unanswered {
    ghost from_gives = { λ reason given. given ≡ Declined reason };

    fn from(reason: Refusal) -> Unanswered {
        Unanswered::Declined(reason)
    }
}

// A line cannot be printed.
impl From<AllocError> for Unanswered {
    ghost from_gives = { λ error given. given ≡ Memory error };

    fn from(error: AllocError) -> Unanswered {
        Unanswered::Memory(error)
    }
}
