// A record as it is handed out: its kind, its place, which is where its byte of kind stands, and its body, a part of the input.
ghost use Rattle.std.specs.Prelude.{◌≡◌, length};
ghost use Rattle.records.specs.Kinds.{width_of};
ghost use Rattle.records.specs.Reading.{entry};

use super::Kind;

// A reader hands out bodies that are as long as their kind has them; a record that is made elsewhere may have any.
#[derive(Clone, Copy, PartialEq, Eq, Debug)]
pub enum Record<'a> {
    // The forecasts of a pass.
    Add { place: usize, body: &'a [u8] },
    // A pass in two bytes, a part and an outcome.
    Settle { place: usize, body: &'a [u8] },
    // Nothing.
    Drop { place: usize, body: &'a [u8] },
    // A rule, its k and a scale.
    Evaluate { place: usize, body: &'a [u8] },
}

impl<'a> Record<'a> {
    // Where its byte of kind stands.
    pub fn place(self) -> usize
        ensures { result ≡ (entry self.entry).place }
    {
        match self {
            Record::Add { place, .. }
            | Record::Settle { place, .. }
            | Record::Drop { place, .. }
            | Record::Evaluate { place, .. } => place,
        }
    }

    // The bytes behind it.
    pub fn body(self) -> &'a [u8]
        ensures { result.now ≡ (entry self.entry).body }
    {
        match self {
            Record::Add { body, .. } => body,
            Record::Settle { body, .. } => body,
            Record::Drop { body, .. } => body,
            Record::Evaluate { body, .. } => body,
        }
    }

    // A record whose body is as long as its kind has it.
    pub(super) fn new(kind: Kind, place: usize, body: &'a [u8]) -> Record<'a>
        requires { length body.now ≡ width_of kind }
        ensures { entry result ≡ record { kind = kind; place = place; body = body.now } }
    {
        match kind {
            Kind::Add(_) => Record::Add { place, body },
            Kind::Settle => Record::Settle { place, body },
            Kind::Drop => Record::Drop { place, body },
            Kind::Evaluate => Record::Evaluate { place, body },
        }
    }
}
