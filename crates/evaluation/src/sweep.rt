// One text for every rule and every scale.
ghost use Rattle.std.specs.Prelude.{◌≡◌, ◌<◌, not, length};
ghost use Rattle.plans.specs.Passes.{passes};
ghost use Rattle.rules.specs.Automaton.{automaton};
ghost use Rattle.evaluation.specs.Evaluation.{Evaluated, closing_of, short_list};
ghost use Rattle.evaluation.specs.Written.{Holds};

use crate::totals::{advance, begin, sums};
use plans::Plan;
use refusals::Refusal;
use rules::Rule;
use scales::{Scale, Weigher};

// Values the plan by the rule on the weigher's scale, and answers m, the rule's number of states. The first three places of
// `answer` are then the sums over the kept, the lost and the aside states, the first m places of `totals` the closing totals
// by state, and those of `next` too if there was a pass. Every other place, and on a refusal every place, is as it was.
// Plan, rule, weigher and lists are the caller's, each lent by itself, and go on below as they came.
pub fn evaluate<R: Rule, W: Weigher>(
    plan: &Plan,
    rule: &R,
    weigher: &W,
    totals: &mut [W::Value],
    next: &mut [W::Value],
    answer: &mut [W::Value],
) -> Result<usize, Refusal>
    ensures { Evaluated W.Value.Scale (automaton R.Rule rule.now) W.Weigher weigher.now (passes plan.now) totals.old next.old answer.old totals.new next.new answer.new result }
{
    let m = rule.states();
    if m == 0 {
        return Err(Refusal::TooWide);
    }
    if plan.parts() > W::LIMIT {
        return Err(Refusal::TooManyParts);
    }
    if !long_enough(m, totals, next, answer) {
        return Err(Refusal::ShortList);
    }
    let totals = &mut totals[..m];
    close(plan, rule, weigher, totals, &mut next[..m]);
    answer[..3].copy_from_slice(&sums(rule, totals));
    Ok(m)
}

// The closing totals by state; if there is a pass, in both lists.
#[tactic(auto, using(crate::proofs::Closing::begun_closes, crate::proofs::Closing::carried_closes, crate::proofs::Closing::closes_with))]
fn close<R: Rule, W: Weigher>(
    plan: &Plan,
    rule: &R,
    weigher: &W,
    totals: &mut [W::Value],
    next: &mut [W::Value],
)
    requires totals { length totals.old ≡ R.states rule.now }
    requires next { length next.old ≡ R.states rule.now }
    ensures totals { Holds W.Value.Scale.zero (closing_of W.Value.Scale (automaton R.Rule rule.now) W.Weigher weigher.now (passes plan.now)) totals.new }
    ensures no_pass { length (passes plan.now) ≡ 0 → next.new ≡ next.old }
    ensures some_pass { 0 < length (passes plan.now) → next.new ≡ totals.new }
{
    begin(rule, totals);
    for pass in plan {
        advance(rule, weigher, pass, totals, next);
    }
}

// Whether both work lists have m places, and the answer list three.
fn long_enough<V: Scale>(m: usize, totals: &[V], next: &[V], answer: &[V]) -> bool
    ensures { result ≡ not (short_list m (length totals.now) (length next.now) (length answer.now)) }
{
    totals.len() >= m && next.len() >= m && answer.len() >= 3
}
