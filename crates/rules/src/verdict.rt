// What a rule says of a plan whose passes came out in a given way.
//
// Kept: no picture is overwritten before it comes down.
// Lost: some are.
// Aside: the rule sets the plan aside, so it counts neither way.
//
// In this order, from 0, they are the places of the answers of an evaluation.
#[derive(Clone, Copy, PartialEq, Eq, Debug)]
pub enum Verdict {
    Kept,
    Lost,
    Aside,
}
