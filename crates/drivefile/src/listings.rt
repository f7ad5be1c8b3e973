// From the bytes of a drive file to its listing.
ghost use Rattle.std.specs.Prelude.{◌≡◌, ◌++◌, IfOk, None, MatchResult, OnOk};
ghost use Rattle.drivefile.specs.Drives.{tail_line};
ghost use Rattle.drivefile.specs.Lines.{entry_lines};
ghost use Rattle.drivefile.specs.Listings.{head_fault, DrivenRun, FailsBy, Listed, OnlyListing};

use crate::calls::read_calls;
use crate::fault::Fault;
use crate::head::head_of;
use crate::lines::{put_end, put_entries, put_fault};
use crate::outcome::{Drive, Failure, Recorded};
use crate::reader::Reader;
use board::run;
use std::alloc::{AllocError, Global};

// Makes the calls of a drive file on the board that its first two records describe.
pub fn drive(heap: Global, file: &[u8]) -> Result<Drive<'_>, Failure>
    ensures { MatchResult result (λ d. (head_fault file.now ≡ None) × DrivenRun file.now d.settings d.calls.items d.start d.journal.items d.tail) (λ f. FailsBy (head_fault file.now) f) }
{
    let mut reader = Reader::new(file);
    let head = head_of(&mut reader)?;
    let Recorded { calls, tail } = read_calls(heap, reader)?;
    let journal = run(heap, head.ramp, head.settings, calls.as_slice())?;
    Ok(Drive {
        settings: head.settings,
        calls,
        start: journal.start,
        journal: journal.entries,
        tail,
    })
}

// The last line.
pub fn put_tail(out: &mut Vec<u8>, tail: Result<(), Fault>) -> Result<(), AllocError>
    ensures { OnOk result (out.new.items ≡ out.old.items ++ tail_line tail) }
{
    match tail {
        Ok(()) => put_end(out),
        Err(fault) => put_fault(out, fault.flaw.into(), fault.place),
    }
}

// The lines of the calls that were made, and the last line.
fn lines_of(heap: Global, driven: Drive<'_>) -> Result<Vec<u8>, AllocError>
    ensures { IfOk result (λ v. v.items ≡ entry_lines driven.entry.journal.items ++ tail_line driven.entry.tail) }
{
    let mut out = Vec::new(heap);
    put_entries(&mut out, driven.journal.as_slice())?;
    put_tail(&mut out, driven.tail)?;
    Ok(out)
}

// The one listing of a drive file of any length; want of memory is the one other answer. That an explanation has the same three
// ways is said there.
pub fn listing(heap: Global, file: &[u8]) -> Result<Vec<u8>, AllocError>
    ensures listed { IfOk result (λ v. Listed file.now v.items) }
    ensures only { IfOk result (λ v. OnlyListing file.now v.items) }
{
    match drive(heap, file) {
        Ok(driven) => lines_of(heap, driven),
        Err(Failure::Faulty(fault)) => {
            let mut out = Vec::new(heap);
            put_fault(&mut out, fault.flaw.into(), fault.place)?;
            Ok(out)
        }
        Err(Failure::Memory(e)) => Err(e),
    }
}
