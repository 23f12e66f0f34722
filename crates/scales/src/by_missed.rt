// Counts of patterns by how many parts they have down: 64 counts modulo 2^64, at places 0 to 63. Plus adds place by place. Times
// puts two stretches of parts together, whose parts down add up: the product of polynomials, cut off behind place 63. A lawful
// scale.
ghost use Rattle.std.specs.Prelude.{◌≡◌, ℕ, ◌^◌, ◌<◌, length, slice_index};

mod laws;
mod scale;
mod tallying;

pub use laws::parts_down_add;
pub use tallying::Tallying;

// How many places there are.
const PLACES: usize = 64;

// That there are 64 counts which fit is part of the type, so that the laws hold for all values.
#[derive(Clone, Copy, PartialEq, Eq, Debug)]
pub struct ByMissed {
    pub counts: [u64; 64],
    ghost whole: { length counts ≡ 64 },
    ghost fits: { (i : ℕ) → slice_index counts i < 2 ^ 64 },
}
