// The plan itself, and what holds of its table between two calls.
ghost use Rattle.std.specs.Prelude.{◌≡◌, ◌≤◌, true, length, take};
ghost use Rattle.plans.specs.Cuts.{rising, last_end, AtMostOne};

mod calls;
mod iter;
mod reads;

use crate::table::Table;
pub use iter::Passes;

// A plan: passes in order, each a list of parts.
// The first `count` ends cut the first `used` places of the table into passes.
// No `Model`, which would show contracts the passes alone: they also say that a declined call leaves every place as it was.
// No `==` either: plans with the same passes may differ in places that are not in use.
#[derive(Clone, Copy, Debug)]
pub struct Plan {
    table: Table,
    count: usize,
    used: usize,
    // To the proofs an array is a list of any length: these two say that the table is whole.
    ghost whole: { length table.parts ≡ 512 },
    ghost ended: { length table.ends ≡ 512 },
    ghost few: { count ≤ 512 },
    ghost room: { used ≤ 512 },
    // Each pass has 1 to 8 parts.
    ghost steps: { rising 0 (take count table.ends) ≡ true },
    // The last pass ends where the used places do.
    ghost full: { last_end 0 (take count table.ends) ≡ used },
    ghost fits: { AtMostOne table.parts used },
}
