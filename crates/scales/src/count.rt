// Counts of patterns: whole numbers modulo 2^64. A lawful scale.
ghost use Rattle.std.specs.Prelude.{◌^◌, ◌<◌};

mod counting;
mod laws;
mod scale;

pub use counting::Counting;

// The bound is part of the type, so that the laws hold for all counts and not only for those that a program can hold.
#[derive(Clone, Copy, PartialEq, Eq, Debug)]
pub struct Count {
    pub number: u64,
    ghost fits: { number < 2 ^ 64 },
}
