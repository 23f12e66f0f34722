// Why a call or a record is declined: one list of reasons for the whole product, each with its number.
#![tactic(auto)]

ghost use Rattle.std.specs.Prelude.{◌≡◌, Some};
ghost use Rattle.refusals.specs.Reasons.{number, sentence};

use std::error::Error;
use std::fmt;

// A reason, by the number that stands for it.
#[derive(Clone, Copy, PartialEq, Eq, Hash, Debug)]
pub enum Refusal {
    OddPass = 1,
    OverOne = 2,
    FullPlan = 3,
    NoSuchPlace = 4,
    AlreadySettled = 5,
    NoPass = 6,
    BadRule = 7,
    TooWide = 8,
    TooManyParts = 9,
    ShortList = 10,
    UnknownKind = 11,
    CutRecord = 12,
    UnknownByte = 13,
}

impl Refusal {
    // The number that callers and the program's output know the reason by. A method, since `u8::from` would not say which number.
    pub fn number(self) -> u8
        ensures { result ≡ number self }
    {
        self as u8
    }

    // What went wrong, for a person.
    pub fn sentence(self) -> &'static str
        ensures { result.now ≡ sentence self }
    {
        match self {
            Refusal::OddPass => "a pass has 1 to 8 parts",
            Refusal::OverOne => "a forecast is above one",
            Refusal::FullPlan => "the plan would have more than 512 parts",
            Refusal::NoSuchPlace => "the plan has no such pass or part",
            Refusal::AlreadySettled => "the part is settled already",
            Refusal::NoPass => "the plan has no pass",
            Refusal::BadRule => "the rule is made outside its limits",
            Refusal::TooWide => "the rule has too many states",
            Refusal::TooManyParts => "the plan has more parts than the scale takes",
            Refusal::ShortList => "a list has too few places",
            Refusal::UnknownKind => "the record is of no known kind",
            Refusal::CutRecord => "the record runs past the input",
            Refusal::UnknownByte => "the record has an unknown outcome, rule or scale",
        }
    }
}

// A refusal is printed as its sentence.
impl fmt::Display for Refusal {
    ghost output = { λ r. Some (sentence r) };

    fn fmt<W: fmt::Write>(&self, f: &mut fmt::Formatter<W>) -> fmt::Result {
        f.write_str(self.sentence())
    }
}

impl Error for Refusal {}
