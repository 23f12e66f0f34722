// Odds as lists hold them.

// U, the unit of forecasts and odds: 2^30 stands for certainty.
pub const UNIT: u64 = 1 << 30;

// Any two numbers. They are read as 0 to U unless low ≤ high ≤ U.
#[derive(Clone, Copy, PartialEq, Eq, Debug)]
pub struct Ends {
    pub low: u64,
    pub high: u64,
}
