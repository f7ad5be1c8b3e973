// The registers of one measuring block, and the state of its command.
use crate::report::Report;

mod steps;

pub use steps::{Due, Judged, Verdict};

// What the command that is open waits for. The weight test is command 440.
#[derive(Clone, Copy)]
pub enum State {
    // Nothing is open.
    Ready,
    // The order of a command other than the weight test stands.
    Working { word: u16 },
    // The weight test settles for the empty weight.
    FirstStep,
    FirstFailed,
    // The weight test has its empty weight and awaits its second step.
    Between { empty: i32 },
    // The weight test settles for the second weight, which should be the empty weight and the value.
    SecondStep { empty: i32, value: i32 },
    SecondFailed { empty: i32 },
    // The command was cancelled, and the next answered scan says so.
    Cancelling { word: u16 },
}

#[derive(Clone, Copy)]
pub struct Block {
    // The command word that the next one is compared with.
    pub(crate) compared: u16,
    // The selected report.
    pub(crate) report: Report,
    pub(crate) response: u16,
    pub(crate) sequence: u8,
    pub(crate) state: State,
}
