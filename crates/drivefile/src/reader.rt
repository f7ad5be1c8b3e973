// Reading the records of a drive file.
ghost use Rattle.std.specs.Prelude.{◌≡◌, ◌+◌, ◌<◌, ◌≤◌, length, IfOk, MatchResult, Some};
ghost use Rattle.drivefile.specs.declared.fault.Flaw.TheVariants.{OutOfTurn};
ghost use Rattle.drivefile.specs.Records.{body_length, found_at};
ghost use Rattle.drivefile.specs.Kinds.{kind_of, body_of, found_in};

use crate::fault::{Fault, Flaw};
use crate::record::{Kind, Placed, Turn};

// The record that stands at a place where one is allowed, or the fault.
pub fn record_at(file: &[u8], place: usize, turn: Turn) -> Result<Placed<'_>, Fault>
    ensures found { found_in result ≡ found_at turn file.now place }
    ensures place { IfOk result (λ p. p.place ≡ place) }
    ensures sized { IfOk result (λ p. body_length (kind_of p.record) ≡ Some (length (body_of p.record))) }
    ensures inside { IfOk result (λ p. place + (1 + length (body_of p.record)) ≤ length file.now) }
{
    if place >= file.len() {
        return Err(Flaw::CutShort.at(file.len()));
    }
    let kind = Kind::try_from(file[place]).map_err(|flaw| flaw.at(place))?;
    if !turn.allows(kind) {
        return Err(Flaw::OutOfTurn.at(place));
    }
    let Some(record) = kind.record(&file[place + 1..]) else {
        return Err(Flaw::CutShort.at(place));
    };
    Ok(Placed { record, place })
}

// A drive file that is read record by record, and the place of the next.
#[derive(Drop)]
pub(crate) struct Reader<'a> {
    pub(crate) file: &'a [u8],
    pub(crate) place: usize,
    ghost within: { place ≤ length file.now },
}

impl<'a> Reader<'a> {
    pub(crate) fn new(file: &'a [u8]) -> Reader<'a>
        ensures file { result.file.now ≡ file.now }
        ensures place { result.place ≡ 0 }
    {
        Reader { file, place: 0 }
    }

    // The next record, or the fault that stands in its place. That the file stays is said by each function that reads on: a
    // reader holds it by reference, of which no field can say that it is the one of before.
    pub(crate) fn record(&mut self, turn: Turn) -> Result<Placed<'a>, Fault>
        ensures found { found_in result ≡ found_at turn self.old.file.now self.old.place }
        ensures place { IfOk result (λ p. p.place ≡ self.old.place) }
        ensures sized { IfOk result (λ p. body_length (kind_of p.record) ≡ Some (length (body_of p.record))) }
        ensures next { IfOk result (λ p. self.new.place ≡ self.old.place + (1 + length (body_of p.record))) }
        ensures file { self.new.file.now ≡ self.old.file.now }
    {
        let placed = record_at(self.file, self.place, turn)?;
        self.place += 1 + placed.record.body().len();
        Ok(placed)
    }

    // No byte may follow.
    pub(crate) fn end(&self) -> Result<(), Fault>
        ensures { MatchResult result (λ _. length self.now.file.now ≤ self.now.place) (λ f. (self.now.place < length self.now.file.now) × (f.flaw ≡ OutOfTurn) × (f.place ≡ self.now.place)) }
    {
        if self.place < self.file.len() {
            return Err(Flaw::OutOfTurn.at(self.place));
        }
        Ok(())
    }
}
