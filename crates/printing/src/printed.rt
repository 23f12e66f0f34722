// Values that can be printed. How a value is printed depends on its plan: of counts by parts down, only as many are shown as the
// plan has parts.
ghost use Rattle.std.specs.Prelude.{ℕ, List, Some};
ghost use Rattle.std.specs.Fmt.{WritesOnOk};
ghost use Rattle.printing.specs.Puts.{Puts};

use std::alloc::AllocError;
use std::fmt;

pub trait Printed {
    // The text of a value in a plan of so many parts.
    ghost printed: { Self → ℕ → List ℕ };

    // Prints that text behind what a string holds.
    fn put(&self, parts: usize, out: &mut String) -> Result<(), AllocError>
        ensures { Puts result out.old out.new (printed self.now parts) };

    // Writes that text to any writer. A `dyn Printed` has `put` alone, since a method with a type parameter is not for it.
    fn fmt_in<W: fmt::Write>(&self, parts: usize, f: &mut fmt::Formatter<W>) -> fmt::Result
    where
        Self: Sized,
        ensures { WritesOnOk W.write_str_gives f.old result (printed self.now parts) f.new };
}

// A value with the number of parts of its plan, so that a format prints it as `{}`.
#[derive(Clone, Copy, Debug)]
pub struct InPlan<'a, V> {
    pub value: &'a V,
    pub parts: usize,
}

impl<V: Printed> fmt::Display for InPlan<'_, V> {
    ghost output = { λ shown. Some (V.printed shown.value.now shown.parts) };

    fn fmt<W: fmt::Write>(&self, f: &mut fmt::Formatter<W>) -> fmt::Result {
        self.value.fmt_in(self.parts, f)
    }
}
