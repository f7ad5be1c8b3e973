// The responses of a measuring block.
ghost use Rattle.std.specs.Prelude.{◌≡◌, Some};
ghost use Rattle.board.specs.Responses.{response_of, word_of, response_words};

use std::fmt;
use weigher::Declined;

#[derive(Clone, Copy, PartialEq, Eq, Debug)]
pub enum Response {
    InProcess,
    AbortInProcess,
    // The weight test awaits its second step.
    StepDone,
    NotPossible,
    Late,
    NotKnown,
    BadValue,
    Aborted,
    StepFailed,
    // A command ended well, which its own number says.
    Done(u16),
}

// The response word.
impl From<Response> for u16 {
    ghost from_gives = { λ response word. word ≡ word_of response };

    fn from(response: Response) -> u16 {
        match response {
            Response::InProcess => 2047,
            Response::AbortInProcess => 2004,
            Response::StepDone => 2045,
            Response::NotPossible => 0x8001,
            Response::Late => 0x8002,
            Response::NotKnown => 0x8004,
            Response::BadValue => 0x8008,
            Response::Aborted => 0x8010,
            Response::StepFailed => 0x8020,
            Response::Done(word) => word,
        }
    }
}

// What a response word says.
impl From<u16> for Response {
    ghost from_gives = { λ word response. response ≡ response_of word };

    fn from(word: u16) -> Response {
        match word {
            2047 => Response::InProcess,
            2004 => Response::AbortInProcess,
            2045 => Response::StepDone,
            0x8001 => Response::NotPossible,
            0x8002 => Response::Late,
            0x8004 => Response::NotKnown,
            0x8008 => Response::BadValue,
            0x8010 => Response::Aborted,
            0x8020 => Response::StepFailed,
            word => Response::Done(word),
        }
    }
}

// The response to a word whose order the weigher declined so.
impl From<Declined> for Response {
    ghost use Rattle.weigher.specs.Answers.{number_of};
    ghost use Rattle.board.specs.Acting.{declined_as};

    ghost from_gives = { λ declined response. response ≡ declined_as (number_of declined) };

    fn from(declined: Declined) -> Response {
        match declined {
            Declined::OrderNotKnown => Response::NotKnown,
            Declined::PresetOutside => Response::BadValue,
            _ => Response::NotPossible,
        }
    }
}

impl fmt::Display for Response {
    ghost output = { λ response. Some (response_words response) };

    fn fmt<W: fmt::Write>(&self, f: &mut fmt::Formatter<W>) -> fmt::Result {
        f.write_str(match *self {
            Response::InProcess => "in process",
            Response::AbortInProcess => "abort in process",
            Response::StepDone => "first step done",
            Response::NotPossible => "8001h, not possible or not allowed",
            Response::Late => "8002h, late",
            Response::NotKnown => "8004h, not known",
            Response::BadValue => "8008h, value not allowed",
            Response::Aborted => "8010h, aborted",
            Response::StepFailed => "8020h, step failed",
            Response::Done(_) => "done",
        })
    }
}
