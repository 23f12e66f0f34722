// The states of linear, and the theorem that they judge by runs of missed passes.
//
// State j below k is the present run of missed passes; state k is lost for good. The states are told apart by guards, and not by `cmp`:
// of an `Ordering` the compiled sweep asks the same again in each state, which takes half as much time again.
ghost use Rattle.std.specs.Prelude.{ℕ, ◌≤◌, Bool, List};
ghost use Rattle.rules.specs.Judgement.{judgement};
ghost use Rattle.rules.specs.Linear.{linear, linear_judges, LinearSettles};
ghost use Rattle.std.proofs.Common.{rules};

use super::Linear;
use crate::{Judging, Rule, Verdict};

impl Rule for Linear {
    ghost states = { λ rule. (linear rule.k).states };

    ghost first = { λ rule. (linear rule.k).first };

    ghost step = { λ rule. (linear rule.k).step };

    ghost verdict = { λ rule. (linear rule.k).verdict };

    ghost sized = { Prim.search rules };

    ghost begun = { Prim.search rules };

    ghost empty = { Prim.search rules };

    ghost within = { Prim.search rules };

    ghost outside = { Prim.search rules };

    ghost aside = { Prim.search rules };

    fn states(&self) -> usize {
        self.k + 1
    }

    fn first(&self) -> usize {
        0
    }

    fn step(&self, state: usize, made: bool) -> usize {
        match state {
            run if run < self.k => if made { 0 } else { run + 1 },
            lost if lost == self.k => lost,
            _ => self.first(),
        }
    }

    fn verdict(&self, state: usize) -> Verdict {
        match state {
            run if run < self.k => Verdict::Kept,
            lost if lost == self.k => Verdict::Lost,
            _ => Verdict::Aside,
        }
    }
}

impl Linear {
    // A theorem: runs of missed passes settle what the automaton says of every list, and what the definition says.
    #[tactic(auto, using(crate::proofs::LinearRuns::judgement_settled, crate::proofs::LinearRuns::definition_settled))]
    pub fn judged_by_runs()
        ensures automaton { (k : ℕ) (outcomes : List Bool) → 1 ≤ k → LinearSettles k outcomes (judgement (linear k) outcomes) }
        ensures definition { (k : ℕ) (outcomes : List Bool) → LinearSettles k outcomes (linear_judges k outcomes) }
    {}
}

impl Judging for Linear {
    ghost judges = { λ rule. linear_judges rule.k };

    fn judged() {
        Linear::judged_by_runs();
    }
}
