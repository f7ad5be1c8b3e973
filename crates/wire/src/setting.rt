// Why a number that was given as a setting is refused.
ghost use Rattle.std.specs.Prelude.{◌≡◌, Some};
ghost use Rattle.wire.specs.Settings.{refusal, refusal_words};

use std::error::Error;
use std::fmt;

#[derive(Clone, Copy, PartialEq, Eq, Debug)]
pub enum BadSetting {
    UnknownOrder = 41,
    UnknownIncrement = 42,
}

// The number under which the refusal is reported.
impl From<BadSetting> for u8 {
    ghost from_gives = { λ refused number. number ≡ refusal refused };

    fn from(refused: BadSetting) -> u8 {
        refused as u8
    }
}

impl fmt::Display for BadSetting {
    ghost output = { λ refused. Some (refusal_words refused) };

    fn fmt<W: fmt::Write>(&self, f: &mut fmt::Formatter<W>) -> fmt::Result {
        f.write_str(match self {
            BadSetting::UnknownOrder => "no such order setting",
            BadSetting::UnknownIncrement => "no such increment",
        })
    }
}

impl Error for BadSetting {}
