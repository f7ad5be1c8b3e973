// The adapter board: commands, the scan, acyclic reads, and runs of calls with their journal.
#![tactic(auto)]

mod address;
mod block;
mod board;
mod command;
mod declined;
mod examples;
mod inner;
mod journal;
mod list;
mod look;
mod note;
mod report;
mod response;
mod runs;
mod setting;
mod status;
#[cfg(test)]
mod tests;

pub use address::Address;
pub use board::{Board, attribute_report};
pub use command::{Class, StepWord};
pub use declined::Declined;
pub use examples::worked_examples;
pub use journal::{Answer, Call, Entry, Journal};
pub use list::class_of;
pub use look::Look;
pub use note::Note;
pub use report::{Quantity, Report};
pub use response::Response;
pub use runs::{run, run_into};
pub use setting::Settings;
