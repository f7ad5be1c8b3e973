// Why there is no listing.
ghost use Rattle.std.specs.Prelude.{◌≡◌, Some};
ghost use Rattle.replay.specs.declared.failure.Failure.TheVariants.{Input, Memory, Streams};
ghost use Rattle.replay.specs.Failures.{failure_line, flaw_words};

use std::alloc::{AllocError, AllocFailed};
use std::error::Error;
use std::{fmt, io};
use weigher::Declined;

// What is wrong with a line of the input.
#[derive(Clone, Copy, Debug)]
pub enum Flaw {
    MissingLine,
    NoSettings,
    NoOrder,
    NoNumber,
    Declined(Declined),
}

#[derive(Clone, Copy, Debug)]
pub enum Failure {
    // The line counts from 1.
    Input { line: usize, flaw: Flaw },
    Memory,
    Streams,
}

impl Failure {
    pub fn at(line: usize, flaw: Flaw) -> Failure
        ensures { result ≡ Input line flaw }
    {
        Self::Input { line, flaw }
    }
}

impl fmt::Display for Flaw {
    ghost output = { λ x. Some (flaw_words x) };

    fn fmt<W: fmt::Write>(&self, f: &mut fmt::Formatter<W>) -> fmt::Result {
        match *self {
            Flaw::MissingLine => f.write_str("missing"),
            Flaw::NoSettings => f.write_str("no capacity and tolerance"),
            Flaw::NoOrder => f.write_str("no such order"),
            Flaw::NoNumber => f.write_str("no number"),
            Flaw::Declined(declined) => {
                let number = u8::from(declined);
                let reason = declined.reason();
                write!(f, "declined with {number}, {reason}")
            }
        }
    }
}

impl Error for Flaw {}

impl fmt::Display for Failure {
    ghost output = { λ x. Some (failure_line x) };

    fn fmt<W: fmt::Write>(&self, f: &mut fmt::Formatter<W>) -> fmt::Result {
        match *self {
            Failure::Input { line, flaw } => write!(f, "line {line}: {flaw}"),
            Failure::Memory => f.write_str("out of memory"),
            Failure::Streams => f.write_str("standard input or output failed"),
        }
    }
}

impl Error for Failure {}

impl From<AllocError> for Failure {
    ghost from_gives = { λ _ r. r ≡ Memory };

    fn from(_e: AllocError) -> Failure {
        Failure::Memory
    }
}

impl<T: Drop> From<AllocFailed<T>> for Failure {
    ghost from_gives = { λ _ r. r ≡ Memory };

    fn from(_e: AllocFailed<T>) -> Failure {
        Failure::Memory
    }
}

impl From<io::Error> for Failure {
    ghost from_gives = { λ _ r. r ≡ Streams };

    fn from(_e: io::Error) -> Failure {
        Self::Streams
    }
}
