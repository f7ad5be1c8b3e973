// Drive files: the reader of their records, the run that they make, and the listing of what a board answers to them.
#![tactic(auto)]

mod calls;
mod fault;
mod head;
mod lines;
mod listings;
mod outcome;
mod reader;
mod record;

pub use fault::{Fault, Flaw};
pub use head::LONGEST;
pub use lines::{put_answer, put_fault};
pub use listings::{drive, listing, put_tail};
pub use outcome::{Drive, Failure};
pub use reader::record_at;
pub use record::{Placed, Record, Turn};
