// Reads the records of an input, first to last. After a refusal nothing more is read, since nothing says where the next record
// would begin.
ghost use Rattle.std.specs.Prelude.{◌≡◌, ◌-◌, ◌<◌, length};
ghost use Rattle.std.specs.Iterator.{at_most};
ghost use Rattle.records.specs.Reading.{handed, reading, ReadsOne};

use super::{Kind, Record};
use refusals::Refusal;

// The records of an input, one after the other.
#[derive(Clone, Debug, Drop)]
pub struct Reader<'a> {
    input: &'a [u8],
    place: usize,
}

// A record that cannot be read: where it begins, and why.
#[derive(Clone, Copy, PartialEq, Eq, Debug)]
pub struct Unread {
    pub place: usize,
    pub reason: Refusal,
}

impl<'a> Reader<'a> {
    pub fn new(input: &'a [u8]) -> Reader<'a>
        ensures input { result.input.now ≡ input.now }
        ensures place { result.place ≡ 0 }
    {
        Reader { input, place: 0 }
    }

    // Where the next record begins.
    pub fn place(&self) -> usize
        ensures { result ≡ self.now.place }
    {
        self.place
    }
}

// Each record, or why it cannot be read; none at the end.
impl<'a> Iterator for Reader<'a> {
    type Item = Result<Record<'a>, Unread>;

    ghost next_gives = { ReadsOne };

    ghost remaining = { λ reader. at_most (length reader.input.now - reader.place) };

    fn next(&mut self) -> Option<Self::Item> {
        let Reader { input, place } = self;
        let start = *place;
        if start >= input.len() {
            return None;
        }
        let read = read_at(*input, start);
        *place = match read {
            Ok(record) => start + 1 + record.body().len(),
            Err(_) => input.len(),
        };
        Some(read.map_err(|reason| Unread {
            place: start,
            reason,
        }))
    }
}

// The record that begins at a place of the input.
fn read_at<'a>(input: &'a [u8], place: usize) -> Result<Record<'a>, Refusal>
    requires { place < length input.now }
    ensures { handed result ≡ reading input.now place }
{
    let kind = Kind::try_from(input[place])?;
    let body = input[place + 1..]
        .get(..kind.width())
        .ok_or(Refusal::CutRecord)?;
    Ok(Record::new(kind, place, body))
}
