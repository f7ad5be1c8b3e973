// The records of a drive file, each a part of the file's bytes.
ghost use Rattle.std.specs.Prelude.{◌≡◌, ◌<◌, ◌≤◌, length, take, MatchOption, MatchResult, None, Some};
ghost use Rattle.drivefile.specs.declared.fault.Flaw.TheVariants.{StrangeKind};
ghost use Rattle.drivefile.specs.Kinds.{number_of, kind_of, body_of};
ghost use Rattle.drivefile.specs.Records.{allowed, body_length};

use crate::fault::Flaw;

// Which record must stand here: settings first, the ramp second, then the calls and the end.
// The rules have these three; a test of kinds as a closure would have to be named in every clause instead.
#[derive(Clone, Copy)]
pub enum Turn {
    First,
    Second,
    Later,
}

impl Turn {
    pub(crate) fn allows(self, kind: Kind) -> bool
        ensures { result ≡ allowed self (number_of kind) }
    {
        match self {
            Turn::First => matches!(kind, Kind::Settings),
            Turn::Second => matches!(kind, Kind::Ramp),
            Turn::Later => matches!(kind, Kind::Image | Kind::Read | Kind::End),
        }
    }
}

// The kind of a record, which its first byte tells; whether its turn has come is looked at before its body.
#[derive(Clone, Copy)]
pub(crate) enum Kind {
    End,
    Settings,
    Image,
    Read,
    Ramp,
}

impl TryFrom<u8> for Kind {
    type Error = Flaw;

    ghost try_from_gives = { λ n r. MatchResult r (λ k. number_of k ≡ n) (λ f. (f ≡ StrangeKind) × (body_length n ≡ None)) };

    fn try_from(number: u8) -> Result<Kind, Flaw> {
        match number {
            0 => Ok(Kind::End),
            1 => Ok(Kind::Settings),
            2 => Ok(Kind::Image),
            4 => Ok(Kind::Read),
            5 => Ok(Kind::Ramp),
            _ => Err(Flaw::StrangeKind),
        }
    }
}

impl Kind {
    // The record of this kind whose body these bytes begin with, or none where they are too few.
    pub(crate) fn record(self, bytes: &[u8]) -> Option<Record<'_>>
        ensures { MatchOption result (MatchOption (body_length (number_of self)) ⊥ (λ n. length bytes.now < n)) (λ r. (kind_of r ≡ number_of self) × (body_length (number_of self) ≡ Some (length (body_of r))) × (length (body_of r) ≤ length bytes.now) × (body_of r ≡ take (length (body_of r)) bytes.now)) }
    {
        match self {
            Kind::End => Some(Record::End),
            Kind::Settings => Some(Record::Settings(bytes.get(..3)?)),
            Kind::Image => Some(Record::Image(bytes.get(..8)?)),
            Kind::Read => Some(Record::Read(bytes.get(..4)?)),
            Kind::Ramp => Some(Record::Ramp(bytes.get(..12)?)),
        }
    }
}

// A record, with its body as a part of the file: a slice, so that no maker of records is asked for more than before.
#[derive(Clone, Copy)]
pub enum Record<'a> {
    Settings(&'a [u8]),
    Ramp(&'a [u8]),
    Image(&'a [u8]),
    Read(&'a [u8]),
    End,
}

impl<'a> Record<'a> {
    // Its body, a part of the file.
    pub fn body(self) -> &'a [u8]
        ensures { result.now ≡ body_of self.entry }
    {
        match self {
            Record::Settings(body)
            | Record::Ramp(body)
            | Record::Image(body)
            | Record::Read(body) => body,
            Record::End => &[],
        }
    }
}

// A record and the place of its first byte. How long the body is stands on the functions that make one: as a ghost field it
// would ask more of whoever else does.
#[derive(Clone, Copy)]
pub struct Placed<'a> {
    pub record: Record<'a>,
    pub place: usize,
}
