// The text that evaluations and refusals are printed as.
#![tactic(auto)]

mod lines;
mod printed;
mod values;

pub use lines::{put_answer, put_end, put_refusal};
pub use printed::{InPlan, Printed};
