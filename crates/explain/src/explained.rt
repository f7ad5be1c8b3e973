// From the bytes of a drive file to its explanation.
ghost use Rattle.std.specs.Prelude.{◌≡◌, ◌++◌, IfOk, OnOk};
ghost use Rattle.drivefile.specs.Drives.{tail_line};
ghost use Rattle.drivefile.specs.Faults.{number_of};
ghost use Rattle.explain.specs.Explanations.{indented, tail_words, fault_text, run_text, Explained};

use crate::told::{Explainer, put_indented};
use drivefile::{Drive, Failure, Fault, drive, put_tail};
use std::alloc::{AllocError, Global};

// The last line, and its words.
fn put_ending(text: &mut Vec<u8>, tail: Result<(), Fault>) -> Result<(), AllocError>
    ensures { OnOk result (text.new.items ≡ text.old.items ++ (tail_line tail ++ indented (tail_words tail))) }
{
    put_tail(text, tail)?;
    match tail {
        Ok(()) => put_indented(text, "the file ends here"),
        Err(fault) => put_indented(text, fault.flaw.words()),
    }
}

// The text of a run.
fn run_text(heap: Global, driven: Drive<'_>) -> Result<Vec<u8>, AllocError>
    ensures { IfOk result (λ v. v.items ≡ run_text driven.entry.settings driven.entry.calls.items driven.entry.journal.items driven.entry.tail) }
{
    let mut explainer = Explainer::new(heap, driven.settings.order());
    explainer.put_calls(&driven.calls, &driven.journal)?;
    put_ending(&mut explainer.text, driven.tail)?;
    Ok(explainer.text)
}

// The text of a fault before the first call, which ends it as a later one does.
fn fault_text(heap: Global, fault: Fault) -> Result<Vec<u8>, AllocError>
    ensures { IfOk result (λ v. v.items ≡ fault_text (number_of fault.flaw) fault.place) }
{
    let mut text = Vec::new(heap);
    put_ending(&mut text, Err(fault))?;
    Ok(text)
}

// The explanation of a drive file of any length; want of memory is the one other answer.
// The three ways are those of a listing: a trait over both texts, with its law, would be longer than they are.
pub fn explanation(heap: Global, file: &[u8]) -> Result<Vec<u8>, AllocError>
    ensures { IfOk result (λ v. Explained file.now v.items) }
{
    match drive(heap, file) {
        Ok(driven) => run_text(heap, driven),
        Err(Failure::Faulty(fault)) => fault_text(heap, fault),
        Err(Failure::Memory(e)) => Err(e),
    }
}
