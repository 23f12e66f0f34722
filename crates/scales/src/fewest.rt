// The fewest parts that have to be down: whole numbers below 2^32, of which the largest is read as none. Plus takes the smaller
// and times adds, so the sum over a set of patterns is the fewest parts that one of them has down, and none where the set is
// empty. A lawful scale, the min-plus semiring of shortest paths with a cap.
ghost use Rattle.std.specs.Prelude.{◌^◌, ◌<◌};

mod laws;
mod minimizing;
mod scale;

pub use minimizing::Minimizing;

// The bound is part of the type, so that the laws hold for all values and not only for those that a program can hold.
#[derive(Clone, Copy, PartialEq, Eq, Debug)]
pub struct Fewest {
    // No `Option`: a value on this scale is one whole number of 32 bits, and plus and times work on it as it is.
    pub parts: u32,
    ghost fits: { parts < 2 ^ 32 },
}
