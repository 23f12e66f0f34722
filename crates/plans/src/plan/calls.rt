// The calls that make a plan and change it. Each asks first whether it may, and only then writes.
ghost use Rattle.std.specs.Prelude.{◌≡◌, ℕ, ◌<◌, ◌≤◌, Bool, [], length, take, None, Ok, MatchOption, MatchResult};
ghost use Rattle.plans.specs.Calls.{Called};
ghost use Rattle.plans.specs.Found.{HoldsPart, HoldsOpen, IsLast, Declined};
ghost use Rattle.plans.specs.Model.{place, reply, after, Add, Settle, Drop};
ghost use Rattle.plans.specs.Passes.{passes};

use super::Plan;
use crate::table::{Table, check_pass};
use refusals::Refusal;

impl Plan {
    // A plan with no pass.
    #[tactic(auto, unfolding(crate::specs::Passes::passes))]
    pub fn make() -> Plan
        ensures { passes result ≡ [] }
    {
        Plan {
            table: Table::blank(),
            count: 0,
            used: 0,
        }
    }

    // Appends a pass of open parts with these forecasts.
    #[tactic(auto, using(crate::proofs::Answering::after_declined))]
    pub fn add(&mut self, forecasts: &[u32]) -> Result<(), Refusal>
        ensures { Called (Add forecasts.now) self.old self.new result }
    {
        self.admits(forecasts)?;
        self.append(forecasts);
        Ok(())
    }

    // Settles a part, up or down; its forecast stays. A part is named by two numbers: a pair of them would be made for this call alone.
    pub fn settle(&mut self, pass: usize, part: usize, up: bool) -> Result<(), Refusal>
        ensures { Called (Settle pass part up) self.old self.new result }
    {
        let k = self.open_place(pass, part)?;
        self.settle_at(k, up);
        Ok(())
    }

    // Takes off the last pass.
    pub fn drop_last(&mut self) -> Result<(), Refusal>
        ensures { Called Drop self.old self.new result }
    {
        let last = self.last_pass()?;
        self.keep(last);
        Ok(())
    }

    // Whether a pass with these forecasts may be added, and if not, why.
    #[tactic(auto, using(crate::proofs::Fitting::parts_few), unfolding(crate::specs::Model::reply))]
    fn admits(&self, forecasts: &[u32]) -> Result<(), Refusal>
        ensures { result ≡ reply (Add forecasts.now) (passes self.now) }
    {
        check_pass(forecasts, self.parts())
    }

    // The place of the table that holds an open part, or why there is none.
    fn open_place(&self, pass: usize, part: usize) -> Result<usize, Refusal>
        ensures { MatchResult result (λ k. HoldsOpen self.now pass part k) (λ e. (up : Bool) → Declined (Settle pass part up) (passes self.now) e) }
    {
        let k = self.find(pass, part).ok_or(Refusal::NoSuchPlace)?;
        if !self.table.parts[k].is_open() {
            return Err(Refusal::AlreadySettled);
        }
        Ok(k)
    }

    // The place of the table that holds a part of a pass, if there is such a part.
    fn find(&self, pass: usize, part: usize) -> Option<usize>
        ensures { MatchOption result (place (passes self.now) pass part ≡ None) (λ k. HoldsPart self.now pass part k) }
    {
        let places = self.places(pass)?;
        let place = places.start.checked_add(part)?;
        (place < places.end).then_some(place)
    }

    // The number of the last pass, or why there is none.
    #[tactic(auto, using(crate::proofs::Finding::last_before))]
    fn last_pass(&self) -> Result<usize, Refusal>
        ensures { MatchResult result (λ n. IsLast self.now n) (λ e. Declined Drop (passes self.now) e) }
    {
        self.passes().checked_sub(1).ok_or(Refusal::NoPass)
    }

    // Writes one more pass, which the plan admits.
    fn append(&mut self, forecasts: &[u32])
        requires { reply (Add forecasts.now) (passes self.old) ≡ Ok tt }
        ensures { passes self.new ≡ after (Add forecasts.now) (passes self.old) }
    {
        self.table.append(self.count, self.used, forecasts);
        self.count += 1;
        self.used += forecasts.len();
    }

    // Settles the open part at a place of the table.
    fn settle_at(&mut self, k: usize, up: bool)
        requires { k < 512 }
        ensures { (p i : ℕ) → HoldsOpen self.old p i k → passes self.new ≡ after (Settle p i up) (passes self.old) }
    {
        self.table.settle(k, up);
    }

    // Keeps the first n passes, and forgets the others.
    #[tactic(auto, using(crate::proofs::Shape::first_passes), unfolding(crate::specs::Passes::passes))]
    fn keep(&mut self, n: usize)
        requires { n ≤ length (passes self.old) }
        ensures { passes self.new ≡ take n (passes self.old) }
    {
        self.used = self.first(n);
        self.count = n;
    }
}
