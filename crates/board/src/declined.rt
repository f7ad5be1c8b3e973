// Why a call on the board was declined. A declined call changes nothing.
ghost use Rattle.std.specs.Prelude.{◌≡◌, Some};
ghost use Rattle.board.specs.Declines.{number_of, decline_words};

use std::error::Error;
use std::fmt;

#[derive(Clone, Copy, PartialEq, Eq, Debug)]
pub enum Declined {
    // A strip is not of the image's size.
    WriteMisfit = 11,
    ReadMisfit = 12,
    // There is no such address.
    NoClass = 13,
    NoInstance = 14,
    NoAttribute = 15,
    // The reply's strip is not of four bytes.
    ReplyMisfit = 16,
}

impl Declined {
    // What it says; unlike `Display` it cannot fail.
    pub fn words(self) -> &'static str
        ensures { result.now ≡ decline_words self }
    {
        match self {
            Declined::WriteMisfit => "the write strip is not of eight bytes",
            Declined::ReadMisfit => "the read strip is not of eight bytes",
            Declined::NoClass => "no such class",
            Declined::NoInstance => "no such instance",
            Declined::NoAttribute => "no such attribute",
            Declined::ReplyMisfit => "the strip is not of four bytes",
        }
    }
}

impl fmt::Display for Declined {
    ghost output = { λ declined. Some (decline_words declined) };

    fn fmt<W: fmt::Write>(&self, f: &mut fmt::Formatter<W>) -> fmt::Result {
        f.write_str(self.words())
    }
}

impl Error for Declined {}

// The number that a listing prints.
impl From<Declined> for u8 {
    ghost from_gives = { λ declined number. number ≡ number_of declined };

    fn from(declined: Declined) -> u8 {
        declined as u8
    }
}
