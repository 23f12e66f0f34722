// What holds of every plan there can be, and of the calls on it: each function's contract is one law, and none does anything.
ghost use Rattle.plans.specs.declared.plan.Plan.{Plan};
ghost use Rattle.plans.specs.Laws.{DeclinedChangesNothing, DropUndoesAdd, SettleChangesOnePlace};
ghost use Rattle.plans.specs.Limits.{WithinLimits};
ghost use Rattle.plans.specs.Passes.{passes};

use crate::plan::Plan;

// A declined call changes nothing.
#[tactic(auto, using(crate::proofs::Answering::after_declined))]
pub fn declined_changes_nothing()
    ensures { DeclinedChangesNothing }
{}

// Dropping the last pass after an accepted add gives the plan back.
#[tactic(auto, using(crate::proofs::Lawful::drop_undoes_add_lem))]
pub fn drop_undoes_add()
    ensures { DropUndoesAdd }
{}

// An accepted settle settles the part it names, and nothing else.
#[tactic(auto, using(crate::proofs::Lawful::settle_changes_one_place_lem))]
pub fn settle_changes_one_place()
    ensures { SettleChangesOnePlace }
{}

// Every plan keeps its limits: at most 512 parts, in passes of 1 to 8, with forecasts of at most one.
pub fn plans_keep_limits()
    ensures { (plan : Plan) → WithinLimits (passes plan) }
{}
