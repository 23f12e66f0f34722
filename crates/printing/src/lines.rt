// The lines that are printed: each is one `writeln!` of values that print themselves.
ghost use Rattle.printing.specs.Puts.{Puts};
ghost use Rattle.printing.specs.Lines.{refusal_line, answer_line, end_line};

use crate::printed::{InPlan, Printed};
use refusals::Refusal;
use std::alloc::AllocError;

// A declined record.
pub fn put_refusal(place: usize, reason: Refusal, out: &mut String) -> Result<(), AllocError>
    ensures { Puts result out.old out.new (refusal_line place reason) }
{
    let number = reason.number();
    writeln!(out, "R {place} {number}")
}

// The last line.
pub fn put_end(parts: usize, passes: usize, out: &mut String) -> Result<(), AllocError>
    ensures { Puts result out.old out.new (end_line parts passes) }
{
    writeln!(out, "E {parts} {passes}")
}

// An evaluation: its three values, in a plan of so many parts. Each by its name: of an array the contract would tell them by number.
pub fn put_answer<V: Printed>(
    place: usize,
    parts: usize,
    kept: &V,
    lost: &V,
    aside: &V,
    out: &mut String,
) -> Result<(), AllocError>
    ensures { Puts result out.old out.new (answer_line place (V.printed kept.now parts) (V.printed lost.now parts) (V.printed aside.now parts)) }
{
    let [kept, lost, aside] = [kept, lost, aside].map(|value| InPlan { value, parts });
    writeln!(out, "A {place} {kept} {lost} {aside}")
}
