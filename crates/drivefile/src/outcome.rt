// What a drive file holds, and what came of it.
ghost use Rattle.std.specs.Prelude.{◌≡◌};
ghost use Rattle.drivefile.specs.declared.outcome.Failure.TheVariants.{Faulty, Memory};

use crate::fault::Fault;
use board::{Call, Entry, Look, Settings};
use std::alloc::AllocError;

// The calls of a drive file, and what ends them: its end record, or a fault.
#[derive(Drop)]
pub struct Recorded<'a> {
    pub calls: Vec<Call<'a>>,
    pub tail: Result<(), Fault>,
}

// A drive file whose calls were made: the journal has an entry for each. The two stay apart, as in the promise over runs:
// the calls are the file's, the journal is the board's.
#[derive(Drop)]
pub struct Drive<'a> {
    pub settings: Settings,
    pub calls: Vec<Call<'a>>,
    // What look tells before the first call.
    pub start: Look,
    pub journal: Vec<Entry>,
    pub tail: Result<(), Fault>,
}

// Why no call was made.
#[derive(Clone, Copy)]
pub enum Failure {
    // One of the first two records has a fault.
    Faulty(Fault),
    Memory(AllocError),
}

impl From<Fault> for Failure {
    ghost from_gives = { λ f r. r ≡ Faulty f };

    fn from(fault: Fault) -> Failure {
        Failure::Faulty(fault)
    }
}

impl From<AllocError> for Failure {
    ghost from_gives = { λ e r. r ≡ Memory e };

    fn from(e: AllocError) -> Failure {
        Failure::Memory(e)
    }
}
