// A scale is a type of values with zero, one, plus and times: what a plan is valued on. A pattern of faults has a value, the
// product of its parts' weights, and a set of patterns the sum of theirs. Counts, chances and fewest faults are such values.
//
// None of the four is ever declined. What they mean is two values and two functions of two values, so asking changes nothing
// and the same question has the same answer. Nothing more is asked of a scale; `LawfulScale` adds the laws of a semiring.
//
// Each scale is a type and an impl of its own, since what its values are and how they add differs in each.
ghost use Rattle.std.specs.Prelude.{◌≡◌};

pub trait Scale: Copy + Drop {
    // The value of no pattern.
    ghost zero: { Self };

    // The value of a pattern of no part.
    ghost one: { Self };

    // Either of two sets of patterns.
    ghost plus: { Self → Self → Self };

    // One stretch of parts, then another.
    ghost times: { Self → Self → Self };

    fn zero() -> Self
        ensures { result ≡ zero };

    fn one() -> Self
        ensures { result ≡ one };

    fn plus(self, other: Self) -> Self
        ensures { result ≡ plus self other };

    fn times(self, other: Self) -> Self
        ensures { result ≡ times self other };
}
