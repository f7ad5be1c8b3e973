// What is wrong with a drive file, and where.
ghost use Rattle.std.specs.Prelude.{◌≡◌, Some};
ghost use Rattle.wire.specs.Settings.{refusal};
ghost use Rattle.drivefile.specs.Faults.{number_of, fault_words};

use std::error::Error;
use std::fmt;
use wire::BadSetting;

// The faults that a listing has, each by its number: a case that held a refused setting would leave the list incomplete.
#[derive(Clone, Copy, PartialEq, Eq, Debug)]
pub enum Flaw {
    StrangeKind = 31,
    CutShort = 32,
    OutOfTurn = 33,
    Overlong = 34,
    BadOrder = 41,
    BadIncrement = 42,
    BadRamp = 44,
}

impl Flaw {
    pub(crate) fn at(self, place: usize) -> Fault
        ensures flaw { result.flaw ≡ self }
        ensures place { result.place ≡ place }
    {
        Fault { flaw: self, place }
    }

    // What it says; unlike `Display` it cannot fail.
    pub fn words(self) -> &'static str
        ensures { result.now ≡ fault_words (number_of self) }
    {
        match self {
            Flaw::StrangeKind => "no such kind of record",
            Flaw::CutShort => "a record is missing or cut short",
            Flaw::OutOfTurn => "a record is out of turn",
            Flaw::Overlong => "the file is too long",
            Flaw::BadOrder => "no such order setting",
            Flaw::BadIncrement => "no such increment",
            Flaw::BadRamp => "the ramp is out of range",
        }
    }
}

// The number that the listing prints.
impl From<Flaw> for u8 {
    ghost from_gives = { λ f n. n ≡ number_of f };

    fn from(flaw: Flaw) -> u8 {
        flaw as u8
    }
}

impl From<BadSetting> for Flaw {
    ghost from_gives = { λ b f. number_of f ≡ refusal b };

    fn from(refused: BadSetting) -> Flaw {
        match refused {
            BadSetting::UnknownOrder => Flaw::BadOrder,
            BadSetting::UnknownIncrement => Flaw::BadIncrement,
        }
    }
}

impl fmt::Display for Flaw {
    ghost output = { λ f. Some (fault_words (number_of f)) };

    fn fmt<W: fmt::Write>(&self, f: &mut fmt::Formatter<W>) -> fmt::Result {
        f.write_str(self.words())
    }
}

impl Error for Flaw {}

// The place counts bytes from the start of the file.
#[derive(Clone, Copy, PartialEq, Eq, Debug)]
pub struct Fault {
    pub flaw: Flaw,
    pub place: usize,
}
