// What a part weighs up and down, and what a pass weighs made and missed.
ghost use Rattle.std.specs.Prelude.{◌≡◌};
ghost use Rattle.sums.specs.Chain.{good, bad, good_with, bad_with};
ghost use Rattle.sums.specs.Weights.{up_of, down_of};

use plans::{Part, Standing};
use scales::{Scale, Weigher};

// What a pass weighs: `good` being made, and `bad` being missed.
#[derive(Drop)]
pub(super) struct PassWeights<V> {
    pub(super) good: V,
    pub(super) bad: V,
}

impl<V: Scale> PassWeights<V> {
    // Of a pass with no part.
    fn empty() -> PassWeights<V>
        ensures good { result.good ≡ V.one }
        ensures bad { result.bad ≡ V.zero }
    {
        PassWeights {
            good: V::one(),
            bad: V::zero(),
        }
    }

    // Of a pass with one more part, which weighs so much up and so much down.
    fn with_weights(self, up: V, down: V) -> PassWeights<V>
        ensures good { result.good ≡ V.times self.good up }
        ensures bad { result.bad ≡ V.plus (V.times self.bad (V.plus up down)) (V.times self.good down) }
    {
        let PassWeights { good, bad } = self;
        PassWeights {
            good: good.times(up),
            bad: bad.times(up.plus(down)).plus(good.times(down)),
        }
    }

    // Of a pass with one more part, weighed as it stands. Within each arm, where the two weights are known: of a pair of them out of the
    // `match` the compiled code knows nothing.
    fn with_part<W: Weigher<Value = V>>(self, weigher: &W, part: &Part) -> PassWeights<V>
        ensures good { result.good ≡ good_with V.Scale (up_of V.Scale W.Weigher weigher.now) (down_of V.Scale W.Weigher weigher.now) self.good part.now }
        ensures bad { result.bad ≡ bad_with V.Scale (up_of V.Scale W.Weigher weigher.now) (down_of V.Scale W.Weigher weigher.now) self.good self.bad part.now }
    {
        match part.standing {
            Standing::Open => self.with_weights(
                weigher.up(part.forecast),
                weigher.down(part.forecast),
            ),
            Standing::Up => self.with_weights(V::one(), V::zero()),
            Standing::Down => self.with_weights(V::zero(), V::one()),
        }
    }

    // Of a pass with these parts.
    pub(super) fn of<W: Weigher<Value = V>>(weigher: &W, parts: &[Part]) -> PassWeights<V>
        ensures good { result.good ≡ good V.Scale (up_of V.Scale W.Weigher weigher.now) (down_of V.Scale W.Weigher weigher.now) parts.now }
        ensures bad { result.bad ≡ bad V.Scale (up_of V.Scale W.Weigher weigher.now) (down_of V.Scale W.Weigher weigher.now) parts.now }
    {
        let mut pass = PassWeights::empty();
        for part in parts {
            pass = pass.with_part(weigher, part);
        }
        pass
    }
}
