// What the scale did with a command that a scan closed.
ghost use Rattle.std.specs.Prelude.{◌≡◌, Some};
ghost use Rattle.board.specs.Commands.{class_of};
ghost use Rattle.explain.specs.Effects.{effect_of, done_by, effect_words};

use board::{Class, Look, Note, Response, class_of};
use std::fmt;
use weigher::Order;

#[derive(Clone, Copy)]
pub enum Effect {
    // The first step of the weight test found its empty weight.
    Emptied,
    Tared(i32),
    Zeroed(i32),
    Cleared,
    Preset(i32),
    // The weight test found this deviation.
    Tested(i64),
    // The command failed, and the scale is as it was.
    Kept,
}

impl Effect {
    // The effect of a scan with this note, if it has one; look tells this after the scan.
    pub(crate) fn of(note: Note, after: Look) -> Option<Effect>
        ensures { result ≡ effect_of note after }
    {
        match (note.closed, note.posted) {
            (None, Some(response)) if Response::from(response) == Response::StepDone => {
                Some(Effect::Emptied)
            }
            (Some(word), Some(response)) if word == response => Effect::done(word, after),
            // Closed by an error: a command that would have done something has not.
            (Some(word), Some(_)) => Effect::done(word, after).and(Some(Effect::Kept)),
            _ => None,
        }
    }

    // The effect of a command that ended well.
    fn done(word: u16, after: Look) -> Option<Effect>
        ensures { result ≡ done_by (class_of word) after }
    {
        Some(match class_of(word)? {
            Class::Order(Order::TareWhenStill | Order::TareNow) => Effect::Tared(after.tare),
            Class::Order(Order::ZeroWhenStill | Order::ZeroNow) => Effect::Zeroed(after.zero),
            Class::Order(Order::ClearTare) => Effect::Cleared,
            Class::PresetTare => Effect::Preset(after.tare),
            Class::WeightTest => Effect::Tested(after.deviation),
            _ => return None,
        })
    }
}

impl fmt::Display for Effect {
    ghost output = { λ x. Some (effect_words x) };

    fn fmt<W: fmt::Write>(&self, f: &mut fmt::Formatter<W>) -> fmt::Result {
        match *self {
            Effect::Emptied => f.write_str("The empty weight is taken."),
            Effect::Tared(tare) => write!(f, "The scale has taken the tare, {tare} g."),
            Effect::Zeroed(zero) => {
                write!(
                    f,
                    "The scale has taken the zero, {zero} g, and has no tare."
                )
            }
            Effect::Cleared => f.write_str("The scale has cleared the tare."),
            Effect::Preset(tare) => write!(f, "The scale has preset the tare, {tare} g."),
            Effect::Tested(deviation) => write!(f, "The scale is off by {deviation} g."),
            Effect::Kept => f.write_str("The scale keeps its zero and tare."),
        }
    }
}
