// Odds as plus and times work on them. Ghost fields, and no `Model`: whoever holds odds knows what holds of their ends.
ghost use Rattle.std.specs.Prelude.{◌^◌, ◌≤◌};

mod work;

#[derive(Clone, Copy, PartialEq, Eq, Debug)]
pub struct Odds {
    low: u64,
    high: u64,
    ghost ordered: { low ≤ high },
    ghost within: { high ≤ 2 ^ 30 },
}
