// Rules: small automata that read which passes were made and say whether the plan keeps its pictures.
//
// `Rule` says what a rule is, `Judging` that its verdict on every list of outcomes is the one of its definition.
// Each named rule, and each layer over other rules, is a file of its own.
#![tactic(auto)]

mod judging;
mod linear;
mod rule;
mod verdict;
mod worked;

pub use judging::{Judging, judge};
pub use linear::Linear;
pub use rule::Rule;
pub use verdict::Verdict;
pub use worked::worked_linear;
