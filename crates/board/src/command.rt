// What a command word asks for.
use crate::report::Report;
use weigher::Order;

// The words that go on with a command that is open.
#[derive(Clone, Copy, PartialEq, Eq, Debug)]
pub enum StepWord {
    Next,
    Cancel,
    Retry,
    Skip,
}

#[derive(Clone, Copy, PartialEq, Eq, Debug)]
pub enum Class {
    Report(Report),
    NoOperation,
    // Its value comes with the scan.
    PresetTare,
    // One order, begun and waited for.
    Order(Order),
    // The weight test in two steps.
    WeightTest,
    Step(StepWord),
}
