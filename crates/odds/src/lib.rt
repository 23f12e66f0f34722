// Odds: a chance that lies between a low and a high end, in units of 1/U, where U is 2^30.
//
// Lists hold odds as plain pairs of ends, `Ends`, which is the type of the scale. Plus and times read a pair into `Odds`, whose
// ends keep low ≤ high ≤ U, so that no sum or product of ends overflows, and write the result back as a plain pair.
//
// Products round, the low end down and the high end up, so this scale is not lawful. What it keeps instead is that it encloses:
// if each of two pairs has a chance between its ends, their product has the product of the chances between its ends, and their
// sum the sum of the chances, while that is at most one.
#![tactic(auto)]

mod enclosing;
mod ends;
mod forecasting;
mod odds;
mod scale;

pub use enclosing::odds_enclose;
pub use ends::{Ends, UNIT};
pub use forecasting::Forecasting;
pub use odds::Odds;
