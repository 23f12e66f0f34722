// The values of the four scales as they are printed: by `put` and by `fmt_in` alike.
ghost use Rattle.std.specs.Prelude.{◌≡◌, Some};
ghost use Rattle.scales.specs.Fewests.{least};
ghost use Rattle.scales.specs.Tallies.{up_to};
ghost use Rattle.printing.specs.Values.{count_text, ends_text, fewest_text, least_text, by_missed_text, commas};

use crate::printed::Printed;
use odds::Ends;
use scales::{ByMissed, Count, Fewest};
use std::alloc::AllocError;
use std::fmt;

impl Printed for Count {
    ghost printed = { count_text };

    fn put(&self, _parts: usize, out: &mut String) -> Result<(), AllocError> {
        write!(out, "{}", self.number)
    }

    fn fmt_in<W: fmt::Write>(&self, _parts: usize, f: &mut fmt::Formatter<W>) -> fmt::Result {
        write!(f, "{}", self.number)
    }
}

// A number of parts, or `none`.
#[derive(Drop)]
struct Least {
    parts: Option<u32>,
}

impl Least {
    fn of(value: &Fewest) -> Least
        ensures { result.parts ≡ least value.now }
    {
        Least {
            parts: value.least(),
        }
    }
}

impl fmt::Display for Least {
    ghost output = { λ shown. Some (least_text shown.parts) };

    fn fmt<W: fmt::Write>(&self, f: &mut fmt::Formatter<W>) -> fmt::Result {
        match self.parts {
            Some(number) => write!(f, "{number}"),
            None => write!(f, "none"),
        }
    }
}

impl Printed for Fewest {
    ghost printed = { fewest_text };

    fn put(&self, _parts: usize, out: &mut String) -> Result<(), AllocError> {
        write!(out, "{}", Least::of(self))
    }

    fn fmt_in<W: fmt::Write>(&self, _parts: usize, f: &mut fmt::Formatter<W>) -> fmt::Result {
        write!(f, "{}", Least::of(self))
    }
}

impl Printed for Ends {
    ghost printed = { ends_text };

    fn put(&self, _parts: usize, out: &mut String) -> Result<(), AllocError> {
        write!(out, "{}-{}", self.low, self.high)
    }

    fn fmt_in<W: fmt::Write>(&self, _parts: usize, f: &mut fmt::Formatter<W>) -> fmt::Result {
        write!(f, "{}-{}", self.low, self.high)
    }
}

// Numbers with commas between them.
#[derive(Drop)]
struct Commas<'a> {
    numbers: &'a [u64],
}

impl Commas<'_> {
    // The counts that a pattern of so many parts can have down.
    fn of(value: &ByMissed, parts: usize) -> Commas<'_>
        ensures { result.numbers.now ≡ up_to value.now parts }
    {
        Commas {
            numbers: value.up_to(parts),
        }
    }
}

impl fmt::Display for Commas<'_> {
    ghost output = { λ shown. Some (commas shown.numbers.now) };

    fn fmt<W: fmt::Write>(&self, f: &mut fmt::Formatter<W>) -> fmt::Result {
        if let [first, rest @ ..] = self.numbers {
            write!(f, "{first}")?;
            for number in rest {
                write!(f, ",{number}")?;
            }
        }
        Ok(())
    }
}

impl Printed for ByMissed {
    ghost printed = { by_missed_text };

    fn put(&self, parts: usize, out: &mut String) -> Result<(), AllocError> {
        write!(out, "{}", Commas::of(self, parts))
    }

    fn fmt_in<W: fmt::Write>(&self, parts: usize, f: &mut fmt::Formatter<W>) -> fmt::Result {
        write!(f, "{}", Commas::of(self, parts))
    }
}
