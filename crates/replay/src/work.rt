// The lists that evaluations on one scale work in, and the line that each evaluation prints.
ghost use Rattle.std.specs.Prelude.{◌≡◌, vec_len};
ghost use Rattle.plans.specs.Passes.{passes};
ghost use Rattle.rules.specs.Automaton.{automaton};

use crate::unanswered::Unanswered;
use evaluation::evaluate;
use plans::Plan;
use printing::{Printed, put_answer};
use rules::Rule;
use scales::{Scale, Weigher};
use std::alloc::{AllocError, Global};

// Two work lists of so many places, and the list of the answers.
// `Vec` and a ghost length: with a boxed array of a type parameter the borrow as a slice was not proved.
#[derive(Drop)]
pub(super) struct Lists<V, const PLACES: usize> {
    totals: Vec<V>,
    next: Vec<V>,
    answer: [V; 3],
    ghost first: { vec_len totals ≡ PLACES },
    ghost second: { vec_len next ≡ PLACES },
}

impl<V: Scale, const PLACES: usize> Lists<V, PLACES> {
    pub(super) fn new(alloc: Global) -> Result<Lists<V, PLACES>, AllocError> {
        Ok(Lists {
            totals: vec![in alloc; V::zero(); PLACES]?,
            next: vec![in alloc; V::zero(); PLACES]?,
            answer: [V::zero(); 3],
        })
    }
}

impl<V: Printed + Scale, const PLACES: usize> Lists<V, PLACES> {
    ghost use Rattle.replay.specs.Evaluations.{evaluation_line};
    ghost use Rattle.replay.specs.Lines.{Carries};

    // Evaluates the plan, and prints the answers.
    pub(super) fn put_evaluation<R: Rule, W: Weigher<Value = V>>(
        &mut self,
        plan: &Plan,
        rule: &R,
        weigher: &W,
        place: usize,
        out: &mut String,
    ) -> Result<(), Unanswered>
        ensures { Carries result out.old out.new place (evaluation_line V.Scale (automaton R.Rule rule.now) W.Weigher weigher.now V.Printed.printed PLACES (passes plan.now) place) }
    {
        evaluate(
            plan,
            rule,
            weigher,
            &mut self.totals,
            &mut self.next,
            &mut self.answer,
        )?;
        let [kept, lost, aside] = &self.answer;
        put_answer(place, plan.parts(), kept, lost, aside, out)?;
        Ok(())
    }
}
