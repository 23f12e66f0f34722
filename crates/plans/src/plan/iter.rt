// The passes of a plan, one after the other.
ghost use Rattle.std.specs.Prelude.{◌≡◌, ◌≤◌, drop, length};
ghost use Rattle.std.specs.Iterator.{YieldsFirstRef, item_count};
ghost use Rattle.plans.specs.Model.{Model};
ghost use Rattle.plans.specs.Passes.{passes};

use super::Plan;
use crate::part::Part;
use std::marker::Model;

// The passes of a plan that are still to come. A contract sees it as the list of them.
#[derive(Clone, Debug, Drop)]
pub struct Passes<'a> {
    plan: &'a Plan,
    next: usize,
}

impl<'a> Model for Passes<'a> {
    ghost Value = { Model };

    ghost view = { λ left. drop left.next (passes left.plan.now) };
}

impl Plan {
    // All passes in order, each as its parts.
    #[tactic(auto, using(crate::proofs::Shape::passes_few))]
    pub fn iter(&self) -> Passes<'_>
        ensures all { result ≡ passes self.now }
        ensures few { length result ≤ 512 }
    {
        Passes {
            plan: self,
            next: 0,
        }
    }
}

impl<'a> IntoIterator for &'a Plan {
    type Item = &'a [Part];

    type IntoIter = Passes<'a>;

    ghost into_iter_gives = { λ plan left. (left ≡ passes plan.now) × (length left ≤ 512) };

    fn into_iter(self) -> Passes<'a> {
        self.iter()
    }
}

impl<'a> Iterator for Passes<'a> {
    type Item = &'a [Part];

    ghost next_gives = { YieldsFirstRef (λ left. left) };

    ghost remaining = { item_count (λ left. left) };

    #[tactic(auto, using(crate::proofs::Shape::passes_few))]
    fn next(&mut self) -> Option<&'a [Part]> {
        let pass = self.plan.pass(self.next)?;
        self.next += 1;
        Some(pass)
    }
}
