// Totals by state: how they begin, how a pass carries them on, and how they are summed by verdict.
ghost use Rattle.std.specs.Prelude.{◌≡◌, ℕ, ◌<◌, length, slice_index_or, ◌==◌};
ghost use Rattle.rules.specs.Automaton.{automaton};
ghost use Rattle.sums.specs.Chain.{begun, judged, add_if};
ghost use Rattle.evaluation.specs.Evaluation.{pass_totals};
ghost use Rattle.evaluation.specs.Written.{Holds};

use crate::weights::PassWeights;
use plans::Part;
use rules::Rule;
use scales::{Scale, Weigher};

// One at the first state, zero at the others.
pub(super) fn begin<R: Rule, V: Scale>(rule: &R, totals: &mut [V])
    ensures { Holds V.zero (begun V.Scale (automaton R.Rule rule.now)) totals.new }
{
    let first = rule.first();
    for (state, total) in totals.iter_mut().enumerate() {
        *total = if state == first { V::one() } else { V::zero() };
    }
}

// Adds a value at one place.
fn add_at<V: Scale>(list: &mut [V], place: usize, value: V)
    requires { place < length list.old }
    ensures { (k : ℕ) → slice_index_or list.new k V.zero ≡ add_if V.Scale (place == k) (slice_index_or list.old k V.zero) value }
{
    list[place] = list[place].plus(value);
}

// Zero at every place. A loop: `fill` asks for a clone that cannot fail, and the proof of `fill_with` is longer than this.
fn clear<V: Scale>(list: &mut [V])
    ensures { Holds V.zero (λ _. V.zero) list.new }
{
    for sum in list.iter_mut() {
        *sum = V::zero();
    }
}

// Carries the totals over one more pass, and leaves them in both lists: each state adds its total to the state that it steps to when
// the pass is made, and to the one when it is missed.
pub(super) fn advance<R: Rule, W: Weigher>(
    rule: &R,
    weigher: &W,
    pass: &[Part],
    totals: &mut [W::Value],
    next: &mut [W::Value],
)
    requires totals { length totals.old ≡ R.states rule.now }
    requires next { length next.old ≡ R.states rule.now }
    ensures totals { Holds W.Value.Scale.zero (pass_totals W.Value.Scale (automaton R.Rule rule.now) W.Weigher weigher.now pass.now totals.old) totals.new }
    ensures next { next.new ≡ totals.new }
{
    let weights = PassWeights::of(weigher, pass);
    clear(next);
    for (state, total) in totals.iter().enumerate() {
        // A copy, so that what is written to `next` does not have it read and tested again.
        let total = *total;
        add_at(next, rule.step(state, true), total.times(weights.good));
        add_at(next, rule.step(state, false), total.times(weights.bad));
    }
    totals.copy_from_slice(next);
}

// The sums of the totals over the kept, the lost and the aside states.
pub(super) fn sums<R: Rule, V: Scale>(rule: &R, totals: &[V]) -> [V; 3]
    ensures { Holds V.zero (judged V.Scale (automaton R.Rule rule.now) (λ s. slice_index_or totals.now s V.zero) (length totals.now)) result }
{
    let mut sums = [V::zero(); 3];
    for (state, total) in totals.iter().enumerate() {
        add_at(&mut sums, rule.verdict(state) as usize, *total);
    }
    sums
}
