// What a block does with what a tend tells, and with a command word.
ghost use Rattle.std.specs.Prelude.{◌≡◌, ◌^◌, ◌<◌, ◌-ℤ◌, unsigned_abs};
ghost use Rattle.board.specs.Registers.{compares, shown, posted, open_word};
ghost use Rattle.board.specs.Responses.{word_of};
ghost use Rattle.board.specs.Dues.{due_of, closing, leaving};
ghost use Rattle.board.specs.Judging.{verdict_on, step_of, taken_as, opened_as, second_step};

use super::{Block, State};
use crate::command::{Class, StepWord};
use crate::list::WEIGHT_TEST;
use crate::report::Report;
use crate::response::Response;
use weigher::{Order, Told};

// A response that the open command is due, and the state that it leaves.
#[derive(Clone, Copy)]
pub struct Due {
    pub(crate) response: Response,
    pub(crate) state: State,
    // What the weight test found, where it ends.
    pub(crate) deviation: Option<i64>,
}

// A command word that differs from the compared word, with what the scan brought beside it.
#[derive(Clone, Copy)]
pub struct Judged {
    pub(crate) word: u16,
    // Bit 15 or a channel bit is set, or the channel mask is neither 0 nor 1. A flag beside the class, and no case of it,
    // since a step word goes by its class whatever the mask is.
    pub(crate) flawed: bool,
    pub(crate) class: Option<Class>,
    // The value written, if it is whole.
    pub(crate) value: Option<i32>,
}

// What is to be done about a judged word.
#[derive(Clone, Copy)]
pub enum Verdict {
    Ignored,
    // The word is taken and closed at once.
    Closed { response: Response },
    // Likewise, and the value shows this report from here on.
    Selected { report: Report },
    // The word is taken and begins an order; the state is that of the command while it stands.
    Opened { order: Order, state: State },
    // A step of the open command settles, or fails where that cannot be begun.
    Started { state: State, failed: State },
    Failed { state: State },
    Cancelled { word: u16 },
}

impl Block {
    // The response that the open command is due after a tend that told this, at this gross weight.
    pub(crate) fn due(&self, told: Told, gross: i32) -> Option<Due>
        ensures { result ≡ due_of self.now.state told gross }
    {
        match (self.state, told) {
            (State::Cancelling { .. }, _) => Some(Due::closing(Response::Aborted)),
            (State::Working { word }, Told::Done) => Some(Due::closing(Response::Done(word))),
            (State::Working { .. }, Told::NotPossible) => Some(Due::closing(Response::NotPossible)),
            (State::Working { .. }, Told::Late) => Some(Due::closing(Response::Late)),
            (State::FirstStep, Told::Done) => Some(Due::step(
                Response::StepDone,
                State::Between { empty: gross },
            )),
            (State::FirstStep, Told::NotPossible | Told::Late) => {
                Some(Due::step(Response::StepFailed, State::FirstFailed))
            }
            (State::SecondStep { empty, value }, Told::Done) => Some(Due {
                response: Response::Done(WEIGHT_TEST),
                state: State::Ready,
                deviation: Some(deviation(gross, empty, value)),
            }),
            (State::SecondStep { empty, .. }, Told::NotPossible | Told::Late) => {
                Some(Due::step(Response::StepFailed, State::SecondFailed { empty }))
            }
            _ => None,
        }
    }

    // Posts a response, after which the command is in this state.
    pub(crate) fn post(&mut self, response: Response, state: State)
        ensures { self.new ≡ posted (word_of response) state self.old }
    {
        self.response = response.into();
        self.sequence = (self.sequence % 4 + 1) % 4;
        self.state = state;
    }

    // Shows a response without posting it.
    pub(crate) fn show(&mut self, response: Response, state: State)
        ensures { self.new ≡ shown (word_of response) state self.old }
    {
        self.response = response.into();
        self.state = state;
    }

    // The command word that is open, if any.
    pub(crate) fn open_word(&self) -> Option<u16>
        ensures { result ≡ open_word self.now.state }
    {
        match self.state {
            State::Ready => None,
            State::Working { word } | State::Cancelling { word } => Some(word),
            State::FirstStep
            | State::FirstFailed
            | State::Between { .. }
            | State::SecondStep { .. }
            | State::SecondFailed { .. } => Some(WEIGHT_TEST),
        }
    }

    // Judges a word, which becomes the compared word.
    pub(crate) fn judge(&mut self, judged: Judged, capacity: u32) -> Verdict
        ensures verdict { result ≡ verdict_on self.old.state judged capacity }
        ensures after { self.new ≡ compares judged.word self.old }
    {
        self.compared = judged.word;
        match (self.state, judged.step()) {
            (State::Ready, _) => judged.taken(),
            (State::Working { word }, Some(StepWord::Cancel)) => Verdict::Cancelled { word },
            (
                State::FirstStep
                | State::FirstFailed
                | State::Between { .. }
                | State::SecondStep { .. }
                | State::SecondFailed { .. },
                Some(StepWord::Cancel),
            ) => Verdict::Cancelled { word: WEIGHT_TEST },
            (State::FirstFailed, Some(StepWord::Retry)) => Verdict::Started {
                state: State::FirstStep,
                failed: State::FirstFailed,
            },
            (State::Between { empty }, Some(StepWord::Next))
            | (State::SecondFailed { empty }, Some(StepWord::Retry)) => {
                judged.second_step(empty, capacity)
            }
            _ => Verdict::Ignored,
        }
    }
}

// How far the second weight is from the empty weight and the value.
fn deviation(gross: i32, empty: i32, value: i32) -> i64
    ensures { result ≡ gross -ℤ empty -ℤ value }
{
    difference(gross, empty) - i64::from(value)
}

fn difference(a: i32, b: i32) -> i64
    ensures value { result ≡ a -ℤ b }
    ensures bound { unsigned_abs result < 2 ^ 33 }
{
    i64::from(a) - i64::from(b)
}

impl Due {
    // The response that closes the command.
    fn closing(response: Response) -> Due
        ensures { result ≡ closing response }
    {
        Due::step(response, State::Ready)
    }

    // A response after which the command is in this state.
    fn step(response: Response, state: State) -> Due
        ensures { result ≡ leaving response state }
    {
        Due {
            response,
            state,
            deviation: None,
        }
    }
}

impl Judged {
    // The step word that it is, if it is one. Its mask is not looked at.
    fn step(self) -> Option<StepWord>
        ensures { result ≡ step_of self }
    {
        match self.class {
            Some(Class::Step(step)) => Some(step),
            _ => None,
        }
    }

    // What a word does that is taken.
    fn taken(self) -> Verdict
        ensures { result ≡ taken_as self }
    {
        if self.flawed {
            return Verdict::Closed {
                response: Response::NotPossible,
            };
        }
        match self.class {
            None => Verdict::Closed {
                response: Response::NotKnown,
            },
            Some(Class::Step(_)) => Verdict::Closed {
                response: Response::NotPossible,
            },
            Some(Class::Report(report)) => Verdict::Selected { report },
            Some(Class::NoOperation) => Verdict::Closed {
                response: Response::Done(self.word),
            },
            Some(Class::PresetTare) => match self.value {
                None => Verdict::Closed {
                    response: Response::BadValue,
                },
                Some(v) => self.opened(Order::PresetTare(v)),
            },
            Some(Class::Order(order)) => self.opened(order),
            Some(Class::WeightTest) => Verdict::Opened {
                order: Order::Settle,
                state: State::FirstStep,
            },
        }
    }

    fn opened(self, order: Order) -> Verdict
        ensures { result ≡ opened_as self order }
    {
        Verdict::Opened {
            order,
            state: State::Working { word: self.word },
        }
    }

    // The second step with this scan's value, which must be whole and from 1 to the capacity.
    fn second_step(self, empty: i32, capacity: u32) -> Verdict
        ensures { result ≡ second_step empty self.value capacity }
    {
        let failed = State::SecondFailed { empty };
        match self.value {
            Some(value) if 1 <= value && i64::from(value) <= i64::from(capacity) => {
                Verdict::Started {
                    state: State::SecondStep { empty, value },
                    failed,
                }
            }
            _ => Verdict::Failed { state: failed },
        }
    }
}
