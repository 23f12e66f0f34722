// The evaluation of a plan by any rule on any scale: one sweep over the passes, with a total for each state of the rule.
#![tactic(auto)]

mod sweep;
mod totals;
mod weights;

pub use sweep::evaluate;
