// Rules whose judgement is known: what the automaton says of a list of outcomes is what the rule's definition says of it.
ghost use Rattle.std.specs.Prelude.{◌≡◌, Bool, List};
ghost use Rattle.rules.specs.declared.verdict.Verdict.{Verdict};
ghost use Rattle.rules.specs.Automaton.{automaton};
ghost use Rattle.rules.specs.Judgement.{judgement};

use super::{Rule, Verdict};

pub trait Judging: Rule {
    // What the rule's definition makes of a list of outcomes, with no word of states.
    ghost judges: { Self → List Bool → Verdict };

    // A theorem: the automaton and the definition agree, for every rule of the type and every list. A function, and no ghost member, whose
    // proof could cite lemmas of specs/ alone.
    fn judged()
        ensures { (rule : Self) (outcomes : List Bool) → judgement (automaton Self.Rule rule) outcomes ≡ judges rule outcomes };
}

// The verdict on a plan whose passes came out as given: what the rule's definition makes of them.
pub fn judge<R: Judging>(rule: &R, outcomes: &[bool]) -> Verdict
    ensures { result ≡ R.judges rule.now outcomes.now }
{
    R::judged();
    let mut state = rule.first();
    for made in outcomes {
        state = rule.step(state, *made);
    }
    rule.verdict(state)
}
