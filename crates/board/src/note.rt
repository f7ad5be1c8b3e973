// What one scan did with commands.
ghost use Rattle.std.specs.Prelude.{◌≡◌};
ghost use Rattle.board.specs.Responses.{word_of};
ghost use Rattle.board.specs.Notes.{nothing, takes, at_once, answers};

use crate::response::Response;

#[derive(Clone, Copy, PartialEq, Eq, Debug)]
pub struct Note {
    // The command word taken, the response posted, and the command word closed, each if there is one. A journal tells words,
    // as images do; what a response word says is `Response`.
    pub taken: Option<u16>,
    pub posted: Option<u16>,
    pub closed: Option<u16>,
}

impl Note {
    pub(crate) fn nothing() -> Note
        ensures { result ≡ nothing }
    {
        Note {
            taken: None,
            posted: None,
            closed: None,
        }
    }

    // A word is taken and stays open.
    pub(crate) fn takes(word: u16) -> Note
        ensures { result ≡ takes word }
    {
        Note {
            taken: Some(word),
            posted: None,
            closed: None,
        }
    }

    // A word is taken, answered and closed in one scan.
    pub(crate) fn at_once(word: u16, response: Response) -> Note
        ensures { result ≡ at_once word (word_of response) }
    {
        Note {
            taken: Some(word),
            posted: Some(response.into()),
            closed: Some(word),
        }
    }

    // A response is posted, and this word closed by it, if any.
    pub(crate) fn answers(response: Response, closed: Option<u16>) -> Note
        ensures { result ≡ answers (word_of response) closed }
    {
        Note {
            taken: None,
            posted: Some(response.into()),
            closed,
        }
    }
}
