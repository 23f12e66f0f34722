// The kinds of record. A record is one byte of kind, and then a body whose length the kind fixes.
ghost use Rattle.std.specs.Prelude.{◌≡◌};
ghost use Rattle.std.specs.Option.{ok_or};
ghost use Rattle.refusals.specs.declared.Refusal.TheVariants.{UnknownKind};
ghost use Rattle.records.specs.Kinds.{kind_of, width_of};

use refusals::Refusal;

#[derive(Clone, Copy, PartialEq, Eq, Debug)]
pub enum Kind {
    // Add a pass, of so many forecasts.
    Add(u8),
    // Settle a part.
    Settle,
    // Drop the last pass.
    Drop,
    // Evaluate by a rule, on a scale.
    Evaluate,
}

// The kind that a byte names.
impl TryFrom<u8> for Kind {
    type Error = Refusal;

    ghost try_from_gives = { λ byte kind. kind ≡ ok_or (kind_of byte) UnknownKind };

    fn try_from(byte: u8) -> Result<Kind, Refusal> {
        match byte {
            0x11..=0x18 => Ok(Kind::Add(byte - 0x10)),
            0x22 => Ok(Kind::Settle),
            0x23 => Ok(Kind::Drop),
            0x31 => Ok(Kind::Evaluate),
            _ => Err(Refusal::UnknownKind),
        }
    }
}

impl Kind {
    // How many bytes the body has.
    pub fn width(self) -> usize
        ensures { result ≡ width_of self }
    {
        match self {
            Kind::Add(forecasts) => 4 * forecasts as usize,
            Kind::Settle => 4,
            Kind::Drop => 0,
            Kind::Evaluate => 3,
        }
    }
}
