// What a scan or an acyclic read told, in plain words.
ghost use Rattle.std.specs.Prelude.{◌≡◌, Some};
ghost use Rattle.explain.specs.Words.{sentence_output, grams_words, taken_words, posted_words, closed_words, open_words, scan_words, reply_words};

use crate::effect::Effect;
use crate::names::{CommandName, ReportName, sensed_in};
use board::{Look, Note, Report, Response, class_of};
use std::fmt;

// A sentence after a blank, or nothing.
#[derive(Clone, Copy)]
pub struct Sentence<T>(pub Option<T>);

impl<T: fmt::Display> fmt::Display for Sentence<T> {
    ghost output = { λ x. sentence_output T.output x.0 };

    fn fmt<W: fmt::Write>(&self, f: &mut fmt::Formatter<W>) -> fmt::Result {
        match &self.0 {
            None => Ok(()),
            Some(words) => write!(f, " {words}"),
        }
    }
}

// A value, which is whole for every weight that a board sends.
#[derive(Clone, Copy)]
pub struct Grams(pub Option<i32>);

impl fmt::Display for Grams {
    ghost output = { λ x. Some (grams_words x.0) };

    fn fmt<W: fmt::Write>(&self, f: &mut fmt::Formatter<W>) -> fmt::Result {
        match self.0 {
            None => f.write_str("no whole number"),
            Some(grams) => write!(f, "{grams} g"),
        }
    }
}

// A command word that was taken.
#[derive(Clone, Copy)]
pub struct Taken(pub u16);

impl fmt::Display for Taken {
    ghost output = { λ x. Some (taken_words x.0) };

    fn fmt<W: fmt::Write>(&self, f: &mut fmt::Formatter<W>) -> fmt::Result {
        let word = self.0;
        let name = CommandName(class_of(word));
        write!(f, "Takes {word}, {name}.")
    }
}

// A response that was posted.
#[derive(Clone, Copy)]
pub struct Posted(pub u16);

impl fmt::Display for Posted {
    ghost output = { λ x. Some (posted_words x.0) };

    fn fmt<W: fmt::Write>(&self, f: &mut fmt::Formatter<W>) -> fmt::Result {
        let response = Response::from(self.0);
        write!(f, "Answers: {response}.")
    }
}

// A command word that was closed.
#[derive(Clone, Copy)]
pub struct Closed(pub u16);

impl fmt::Display for Closed {
    ghost output = { λ x. Some (closed_words x.0) };

    fn fmt<W: fmt::Write>(&self, f: &mut fmt::Formatter<W>) -> fmt::Result {
        let word = self.0;
        write!(f, "Closes {word}.")
    }
}

// A command word that is open, and the response that shows.
#[derive(Clone, Copy)]
pub struct Open {
    pub word: u16,
    pub shown: u16,
}

impl fmt::Display for Open {
    ghost output = { λ x. Some (open_words x.shown x.word) };

    fn fmt<W: fmt::Write>(&self, f: &mut fmt::Formatter<W>) -> fmt::Result {
        let word = self.word;
        let response = Response::from(self.shown);
        write!(f, "Open is {word}: {response}.")
    }
}

// An answered scan: the selected report, what the read image shows, the note, and what look tells then.
#[derive(Clone, Copy)]
pub struct Scan {
    pub report: Report,
    pub value: Option<i32>,
    pub status: u16,
    pub shown: u16,
    pub note: Note,
    pub after: Look,
}

impl fmt::Display for Scan {
    ghost output = { λ x. Some (scan_words x) };

    fn fmt<W: fmt::Write>(&self, f: &mut fmt::Formatter<W>) -> fmt::Result {
        let report = ReportName(self.report);
        let grams = Grams(self.value);
        let sensor = sensed_in(self.status);
        let taken = Sentence(self.note.taken.map(Taken));
        let posted = Sentence(self.note.posted.map(Posted));
        let closed = Sentence(self.note.closed.map(Closed));
        let effect = Sentence(Effect::of(self.note, self.after));
        let shown = self.shown;
        let open = Sentence(self.after.open.map(|word| Open { word, shown }));
        write!(
            f,
            "{report}: {grams}, {sensor}.{taken}{posted}{closed}{effect}{open}"
        )
    }
}

// A reply to an acyclic read.
#[derive(Clone, Copy)]
pub struct Reply {
    pub attribute: u8,
    pub report: Report,
    pub value: Option<i32>,
}

impl fmt::Display for Reply {
    ghost output = { λ x. Some (reply_words x) };

    fn fmt<W: fmt::Write>(&self, f: &mut fmt::Formatter<W>) -> fmt::Result {
        let attribute = self.attribute;
        let report = ReportName(self.report);
        let grams = Grams(self.value);
        write!(f, "attribute {attribute}, {report}: {grams}.")
    }
}
