// Scales, on which plans are valued, and weighers, which turn forecasts into weights on a scale.
#![tactic(auto)]

mod by_missed;
mod count;
mod fewest;
mod lawful;
mod scale;
mod weigher;

pub use by_missed::{ByMissed, Tallying, parts_down_add};
pub use count::{Count, Counting};
pub use fewest::{Fewest, Minimizing};
pub use lawful::LawfulScale;
pub use scale::Scale;
pub use weigher::Weigher;
