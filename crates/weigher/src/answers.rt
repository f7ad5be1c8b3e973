// What the calls of a weigher answer: what a tend tells, what look tells, and the declines.
ghost use Rattle.std.specs.Prelude.{◌≡◌, Some};
ghost use Rattle.weigher.specs.Answers.{word_of, sensed_of, sensed_word, number_of, reason_of};

use std::error::Error;
use std::fmt;

// What a tend tells.
#[derive(Clone, Copy, PartialEq, Eq, Debug)]
pub enum Told {
    Idle,
    Waiting,
    Done,
    NotPossible,
    Late,
}

impl Told {
    // The word that names it in a listing; unlike `Display` it cannot fail.
    pub fn word(self) -> &'static str
        ensures { result.now ≡ word_of self }
    {
        match self {
            Told::Idle => "idle",
            Told::Waiting => "waiting",
            Told::Done => "done",
            Told::NotPossible => "not possible",
            Told::Late => "late",
        }
    }
}

impl fmt::Display for Told {
    ghost output = { λ told. Some (word_of told) };

    fn fmt<W: fmt::Write>(&self, f: &mut fmt::Formatter<W>) -> fmt::Result {
        f.write_str(self.word())
    }
}

// What look tells: weights and capacity in grams. Stillness and fault stand beside the load, which a fault leaves as it was,
// since look tells each of them at every moment, and a weigher of another make may tell both.
#[derive(Clone, Copy, PartialEq, Eq, Debug)]
pub struct View {
    pub load: i32,
    pub zero: i32,
    pub tare: i32,
    pub still: bool,
    pub fault: bool,
    pub capacity: u32,
    // Whether an order stands.
    pub standing: bool,
}

// What the sensor says of the load.
#[derive(Clone, Copy, PartialEq, Eq, Debug)]
pub enum Sensed {
    Still,
    Moving,
    Fault,
}

impl Sensed {
    // A fault counts before stillness.
    pub fn of(fault: bool, still: bool) -> Sensed
        ensures { result ≡ sensed_of fault still }
    {
        if fault {
            Sensed::Fault
        } else if still {
            Sensed::Still
        } else {
            Sensed::Moving
        }
    }

    // The word that names it in a listing; unlike `Display` it cannot fail.
    pub fn word(self) -> &'static str
        ensures { result.now ≡ sensed_word self }
    {
        match self {
            Sensed::Still => "still",
            Sensed::Moving => "moving",
            Sensed::Fault => "fault",
        }
    }
}

impl From<View> for Sensed {
    ghost from_gives = { λ view sensed. sensed ≡ sensed_of view.fault view.still };

    fn from(view: View) -> Sensed {
        Sensed::of(view.fault, view.still)
    }
}

impl fmt::Display for Sensed {
    ghost output = { λ sensed. Some (sensed_word sensed) };

    fn fmt<W: fmt::Write>(&self, f: &mut fmt::Formatter<W>) -> fmt::Result {
        f.write_str(Sensed::word(*self))
    }
}

// Why a call was declined. A declined call changes nothing.
#[derive(Clone, Copy, PartialEq, Eq, Debug)]
pub enum Declined {
    OrderStands = 21,
    OrderNotKnown = 22,
    PresetOutside = 23,
    NoOrderStands = 24,
    BadRamp = 44,
    BadCapacity = 45,
    BadTolerance = 46,
}

impl Declined {
    // What it says; unlike `Display` it cannot fail.
    pub fn reason(self) -> &'static str
        ensures { result.now ≡ reason_of self }
    {
        match self {
            Declined::OrderStands => "an order stands",
            Declined::OrderNotKnown => "the order is not known",
            Declined::PresetOutside => "the preset is not 0 to the capacity",
            Declined::NoOrderStands => "no order stands",
            Declined::BadRamp => "the ramp is out of range",
            Declined::BadCapacity => "the capacity is not 1 to 4000000",
            Declined::BadTolerance => "the tolerance is not 0 to 1000",
        }
    }
}

impl fmt::Display for Declined {
    ghost output = { λ declined. Some (reason_of declined) };

    fn fmt<W: fmt::Write>(&self, f: &mut fmt::Formatter<W>) -> fmt::Result {
        f.write_str(self.reason())
    }
}

impl Error for Declined {}

// The number that a listing prints.
impl From<Declined> for u8 {
    ghost from_gives = { λ declined number. number ≡ number_of declined };

    fn from(declined: Declined) -> u8 {
        declined as u8
    }
}
