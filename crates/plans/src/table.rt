// The places that hold a plan's parts, and where each of its passes ends.
ghost use Rattle.std.specs.Prelude.{◌≡◌, ◌+◌, ◌<◌, ◌≤◌, map, length, replicate, slice_set, nat_lt};
ghost use Rattle.std.specs.List.{list_any};
ghost use Rattle.plans.specs.Model.{add_reply};
ghost use Rattle.plans.specs.Parts.{open_part, settled, one};
ghost use Rattle.plans.specs.Lists.{laid, changed_at};

use crate::part::Part;
use refusals::Refusal;

// The most parts of a plan.
const PLACES: usize = 512;

// The most parts of a pass.
const LONGEST: usize = 8;

// The forecast that stands for one.
const ONE: u32 = 1 << 30;

// A plain store: which of the places are in use, the plan knows.
// Arrays, and counts beside them in the plan, in the place of two lists that hold their length: only a plan has an invariant.
#[derive(Clone, Copy, Debug)]
pub(crate) struct Table {
    pub(crate) parts: [Part; PLACES],
    pub(crate) ends: [u16; PLACES],
}

impl Table {
    // A table whose every place holds the same part.
    pub(crate) fn blank() -> Table
        ensures parts { result.parts ≡ replicate 512 (open_part 0) }
        ensures ends { result.ends ≡ replicate 512 0 }
    {
        Table {
            parts: [Part::open(0); PLACES],
            ends: [0; PLACES],
        }
    }

    // Settles the part at the place `k`.
    pub(crate) fn settle(&mut self, k: usize, up: bool)
        requires { k < 512 }
        ensures parts { self.new.parts ≡ changed_at k (settled up) self.old.parts }
        ensures ends { self.new.ends ≡ self.old.ends }
    {
        self.parts[k].settle(up);
    }

    // Writes the pass of that number, open parts with these forecasts, from the place `at` on.
    pub(crate) fn append(&mut self, pass: usize, at: usize, forecasts: &[u32])
        requires pass { pass < 512 }
        requires room { at + length forecasts.now ≤ 512 }
        ensures parts { self.new.parts ≡ laid self.old.parts at (map open_part forecasts.now) }
        ensures ends { self.new.ends ≡ slice_set self.old.ends pass (at + length forecasts.now) }
    {
        self.fill(at, forecasts);
        self.ends[pass] = (at + forecasts.len()) as u16;
    }

    // Writes open parts with these forecasts from the place `at` on.
    #[tactic(auto, using(crate::proofs::Laying::laid_next))]
    fn fill(&mut self, at: usize, forecasts: &[u32])
        requires { at + length forecasts.now ≤ 512 }
        ensures parts { self.new.parts ≡ laid self.old.parts at (map open_part forecasts.now) }
        ensures ends { self.new.ends ≡ self.old.ends }
    {
        // By place, since of the elements that an adapter over `iter_mut` lends nothing is known after.
        for (place, forecast) in (at..).zip(forecasts) {
            self.parts[place] = Part::open(*forecast);
        }
    }
}

// Why a pass with these forecasts is declined where a plan has so many parts, if it is.
#[tactic(auto, using(crate::proofs::Forecasts::over_one_is_any))]
pub(crate) fn check_pass(forecasts: &[u32], parts: usize) -> Result<(), Refusal>
    requires { parts ≤ 512 }
    ensures { result ≡ add_reply forecasts.now parts }
{
    let n = forecasts.len();
    if !(1..=LONGEST).contains(&n) {
        return Err(Refusal::OddPass);
    }
    if over_one(forecasts) {
        return Err(Refusal::OverOne);
    }
    if parts + n > PLACES {
        return Err(Refusal::FullPlan);
    }
    Ok(())
}

// Whether one of the forecasts is above one.
fn over_one(forecasts: &[u32]) -> bool
    ensures { result ≡ list_any (λ f. nat_lt one f) forecasts.now }
{
    forecasts.iter().any(|forecast| *forecast > ONE)
}
