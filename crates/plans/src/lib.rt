// The plan that callers keep: passes of parts with forecasts, added, settled and dropped.
#![tactic(auto)]

pub mod laws;
mod part;
mod plan;
mod table;

pub use part::{Part, Standing};
pub use plan::{Passes, Plan};
