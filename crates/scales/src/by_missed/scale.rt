// Sums and products of counts by parts down.
ghost use Rattle.std.specs.Prelude.{◌≡◌, ℕ, ◌%◌, ◌^◌, ◌<◌, slice_index};
ghost use Rattle.scales.specs.Tallies.{tallies, tally, only, up_to, convolution, sum_below};

use super::{ByMissed, PLACES};
use crate::Scale;
use std::array;

// Any 64 counts are a value.
impl From<[u64; PLACES]> for ByMissed {
    ghost from_gives = { λ counts made. made.counts ≡ counts };

    fn from(counts: [u64; PLACES]) -> ByMissed {
        ByMissed { counts }
    }
}

impl ByMissed {
    // The counts of patterns with at most so many parts down, from none on.
    pub fn up_to(&self, down: usize) -> &[u64]
        ensures { result.now ≡ up_to self.now down }
    {
        &self.counts[..=down.min(PLACES - 1)]
    }

    // The value that has at each place what a function gives there.
    fn at_each<F: Fn(usize) -> u64>(count: F) -> ByMissed
        requires { (i : ℕ) → i < 64 → F.pre count i }
        ensures { (f : ℕ → ℕ) → ((i n : ℕ) → F.post count i n → n ≡ f i % 2 ^ 64) → result ≡ tally f }
    {
        ByMissed::from(array::from_fn(&count))
    }

    // One pattern, which has so many parts down.
    pub(super) fn one_with(down: usize) -> ByMissed
        ensures { result ≡ tally (only down) }
    {
        let mut counts = [0; PLACES];
        if down < PLACES {
            counts[down] = 1;
        }
        ByMissed::from(counts)
    }
}

impl Scale for ByMissed {
    ghost zero = { tallies.zero };

    ghost one = { tallies.one };

    ghost plus = { tallies.plus };

    ghost times = { tallies.times };

    fn zero() -> ByMissed {
        ByMissed::at_each(|_| 0)
    }

    fn one() -> ByMissed {
        ByMissed::one_with(0)
    }

    fn plus(self, other: ByMissed) -> ByMissed {
        ByMissed::at_each(|i| self.counts[i].wrapping_add(other.counts[i]))
    }

    fn times(self, other: ByMissed) -> ByMissed {
        ByMissed::at_each(|i| product_at(&self.counts, &other.counts, i))
    }
}

// Place i of a product: the sum of the products of all places that add up to i. It stands apart, since no proof was found of a sum
// within the closure of `times`.
fn product_at(a: &[u64; PLACES], b: &[u64; PLACES], i: usize) -> u64
    requires { i < 64 }
    ensures { result ≡ convolution (λ j. slice_index a.now j) (λ j. slice_index b.now j) i % 2 ^ 64 }
{
    sum_of(i + 1, |j| a[j].wrapping_mul(b[i - j]))
}

// The sum of n terms, modulo 2^64.
fn sum_of<F: Fn(usize) -> u64>(n: usize, term: F) -> u64
    requires { (k : ℕ) → k < n → F.pre term k }
    ensures { (f : ℕ → ℕ) → ((k x : ℕ) → F.post term k x → x ≡ f k % 2 ^ 64) → result ≡ sum_below n f % 2 ^ 64 }
{
    (0..n)
        .map(&term)
        .fold(0u64, |total, x| total.wrapping_add(x))
}
