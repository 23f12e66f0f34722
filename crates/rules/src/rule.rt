// What a rule is.
//
// A rule is a small automaton over the outcomes of passes, true for made and false for missed. It starts in its first
// state, takes one step for each pass in order, and the verdict on the state that it ends in is its judgement on the plan.
//
// Its states are the numbers below m, so that an evaluation can hold a value for each state in a list. Its meaning is
// four functions of what the rule holds, so a question changes nothing and repeats its reply:
//
//   states   m, how many states there are
//   first    the state before any pass
//   step     the state after a pass, from the state before it and the pass's outcome
//   verdict  kept, lost or aside, for the state after the last pass
//
// Each rule owes six duties, and whoever uses one may count on these alone:
//
//   sized    m is at most 4,096
//   begun    the first state is below m, unless m is 0
//   empty    the first state is 0 where m is 0
//   within   a step from a state below m leads to a state below m
//   outside  a step from any other number leads to the first state
//   aside    the verdict on any other number is aside
//
// A rule with m = 0 has nothing to say: it sets every plan aside.
ghost use Rattle.std.specs.Prelude.{◌≡◌, ℕ, ◌<◌, ◌≤◌, Bool};
ghost use Rattle.rules.specs.declared.verdict.Verdict.{Verdict};
ghost use Rattle.rules.specs.declared.verdict.Verdict.TheVariants.{Aside};

use super::Verdict;

pub trait Rule {
    ghost states: { Self → ℕ };

    ghost first: { Self → ℕ };

    ghost step: { Self → ℕ → Bool → ℕ };

    ghost verdict: { Self → ℕ → Verdict };

    fn states(&self) -> usize
        ensures { result ≡ states self.now };

    fn first(&self) -> usize
        ensures { result ≡ first self.now };

    fn step(&self, state: usize, made: bool) -> usize
        ensures { result ≡ step self.now state made };

    fn verdict(&self, state: usize) -> Verdict
        ensures { result ≡ verdict self.now state };

    ghost sized: { (rule : Self) → states rule ≤ 4096 };

    ghost begun: { (rule : Self) → 0 < states rule → first rule < states rule };

    ghost empty: { (rule : Self) → states rule ≡ 0 → first rule ≡ 0 };

    ghost within: { (rule : Self) (state : ℕ) (made : Bool) → state < states rule → step rule state made < states rule };

    ghost outside: { (rule : Self) (state : ℕ) (made : Bool) → states rule ≤ state → step rule state made ≡ first rule };

    ghost aside: { (rule : Self) (state : ℕ) → states rule ≤ state → verdict rule state ≡ Aside };
}
