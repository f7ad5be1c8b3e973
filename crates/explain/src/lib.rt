// A reader's view of a drive file: each line of its listing, and what happened in plain words.
#![tactic(auto)]

mod effect;
mod explained;
mod names;
mod told;
mod words;

pub use explained::explanation;
