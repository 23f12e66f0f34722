// Worked plans: computed from the definitions, evaluated by the code, and held against a listing of all patterns.
#![tactic(auto)]

ghost use Rattle.worked.specs.Lines.{WorkedLines};
ghost use Rattle.worked.specs.Plans.{Worked};

#[cfg(test)]
mod by_scale;
#[cfg(test)]
mod listing;
#[cfg(test)]
mod tests;
#[cfg(test)]
mod trying;

// A theorem: the definitions value each plan of the table as it says.
#[tactic(auto, unfolding(plans::specs::Model::after, plans::specs::Model::reply))]
pub fn worked_plans()
    ensures { Worked }
{}

// A theorem: on each scale, the definitions print the line that the table has for the plan.
pub fn worked_lines()
    ensures { WorkedLines }
{}
