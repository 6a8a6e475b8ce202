ghost use Rattle.std.specs.Prelude.{◌≡◌, ◌<◌, ◌≤◌, length, take, MatchOption};
ghost use Rattle.records.specs.Kinds.{body_length};
ghost use Rattle.records.specs.Readings.{reading, answered, passing, standing, kind_in, body_in};

use crate::kind::Kind;
use crate::record::{Placed, Record};
use faults::RecordFault;

// Goes through the records of a caller's bytes.
#[derive(Drop)]
pub struct Reader<'a> {
    bytes: &'a [u8],
    place: usize,
    before: Option<Kind>,
}

// The record of a kind whose body stands in front; none where the bytes end inside it.
fn record_of<'a>(kind: Kind, bytes: &'a [u8]) -> Option<Record<'a>>
    ensures { MatchOption result (length bytes.now < body_length kind) (λ x. (body_length kind ≤ length bytes.now) × (kind_in x ≡ kind) × (body_in x ≡ take (body_length kind) bytes.now)) }
{
    match kind {
        Kind::Router => bytes.first_chunk().map(Record::Router),
        Kind::Link => bytes.first_chunk().map(Record::Link),
        Kind::Session => bytes.first_chunk().map(Record::Session),
        Kind::Path => bytes.first_chunk().map(Record::Path),
    }
}

impl<'a> Reader<'a> {
    // A reader at the first record.
    pub fn new(bytes: &'a [u8]) -> Reader<'a>
        ensures { standing result ≡ record { before = 0; place = 0; rest = bytes.now } }
    {
        Reader {
            bytes,
            place: 0,
            before: None,
        }
    }

    // The next record, nothing at the end of the bytes, or why what stands there is no record. No `Iterator`, which would
    // have to end: where there is no record, this answers the same fault each time.
    pub fn next(&mut self) -> Result<Option<Placed<'a>>, RecordFault>
        ensures answer { answered result ≡ reading (standing self.old) }
        ensures stands { standing self.new ≡ passing (standing self.old) (answered result) }
    {
        let place = self.place;
        let Some(first) = self.bytes.get(place) else {
            return Ok(None);
        };
        let kind = Kind::try_from(*first).map_err(|_| RecordFault::UnknownKind(place))?;
        let behind = place + 1;
        let record = record_of(kind, &self.bytes[behind..]).ok_or(RecordFault::CutShort(place))?;
        if Some(kind) < self.before {
            return Err(RecordFault::KindFalls(place));
        }
        self.place = behind + kind.body_len();
        self.before = Some(kind);
        Ok(Some(Placed { place, record }))
    }
}
