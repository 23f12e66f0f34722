// What a caller reads of a plan.
ghost use Rattle.std.specs.Prelude.{◌≡◌, ◌≤◌, ◌∷◌, length, MatchOption, slice_index};
ghost use Rattle.plans.specs.Found.{Holds};
ghost use Rattle.plans.specs.Model.{size, IsPass};
ghost use Rattle.plans.specs.Passes.{passes};

use super::Plan;
use crate::part::Part;
use std::ops::Range;

impl Plan {
    // How many passes there are.
    #[tactic(auto, using(crate::proofs::Shape::count_is_length))]
    pub fn passes(&self) -> usize
        ensures { result ≡ length (passes self.now) }
    {
        self.count
    }

    // How many parts all passes have together.
    #[tactic(auto, using(crate::proofs::Shape::used_is_size))]
    pub fn parts(&self) -> usize
        ensures { result ≡ size (passes self.now) }
    {
        self.used
    }

    // The parts of the pass of that number, counted from 0, if there is one.
    pub fn pass(&self, pass: usize) -> Option<&[Part]>
        ensures { MatchOption result (length (passes self.now) ≤ pass) (λ parts. IsPass (passes self.now) pass parts.now) }
    {
        let places = self.places(pass)?;
        Some(&self.table.parts[places])
    }

    // The places of the table where a pass stands.
    pub(super) fn places(&self, pass: usize) -> Option<Range<usize>>
        ensures { MatchOption result (length (passes self.now) ≤ pass) (λ s. Holds self.now pass s.start s.end) }
    {
        let end = *self.table.ends[..self.count].get(pass)?;
        Some(self.first(pass)..usize::from(end))
    }

    // The place of the table where a pass begins, or where the next one would.
    pub(super) fn first(&self, pass: usize) -> usize
        requires { pass ≤ self.now.count }
        ensures { result ≡ slice_index (0 ∷ self.now.table.ends) pass }
    {
        match pass.checked_sub(1) {
            None => 0,
            Some(before) => usize::from(self.table.ends[before]),
        }
    }
}
