// A weigher names the scale that it weighs on and the most parts that a plan may have on it, and turns a part's forecast into
// the weight of the part being up and that of its being down, always alike.
//
// Each scale's weigher is an impl of its own: it is a number and two weights, which as parameters would be no fewer.
ghost use Rattle.std.specs.Prelude.{◌≡◌, ℕ};

use super::Scale;

pub trait Weigher {
    type Value: Scale;

    // The most parts that a plan may have.
    const LIMIT: usize;

    // The same number, for contracts.
    ghost LIMIT: { ℕ };

    ghost up: { Self → ℕ → Self.Value };

    ghost down: { Self → ℕ → Self.Value };

    fn up(&self, forecast: u32) -> Self::Value
        ensures { result ≡ up self.now forecast };

    fn down(&self, forecast: u32) -> Self::Value
        ensures { result ≡ down self.now forecast };
}
