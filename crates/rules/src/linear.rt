// Lost when some k consecutive passes are missed: the consecutive-k-out-of-n:F system of the reliability books, with a
// missed pass for a failed component.
ghost use Rattle.std.specs.Prelude.{◌≡◌, ◌≤◌, MatchResult};
ghost use Rattle.refusals.specs.declared.Refusal.TheVariants.{BadRule};

use refusals::Refusal;

mod rule;

#[derive(Clone, Copy, PartialEq, Eq, Debug)]
pub struct Linear {
    k: usize,
    ghost least: { 1 ≤ k },
    ghost most: { k ≤ 63 },
}

impl Linear {
    // The rule for k consecutive passes, where k is from 1 to 63.
    pub fn new(k: usize) -> Result<Linear, Refusal>
        ensures { MatchResult result (λ rule. (1 ≤ k) × (k ≤ 63) × (rule.k ≡ k)) (λ e. (e ≡ BadRule) × ((1 ≤ k) × (k ≤ 63) → ⊥)) }
    {
        match k {
            1..=63 => Ok(Linear { k }),
            _ => Err(Refusal::BadRule),
        }
    }
}
