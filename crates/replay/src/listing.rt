// From the input to the listing: the order is begun, the cell is tended, and each tend has its line.
ghost use Rattle.std.specs.Prelude.{◌≡◌, [], length, IfOk, IfErr, None, string_bytes};
ghost use Rattle.weigher.specs.Bases.{scale_of};
ghost use Rattle.weigher.specs.Cells.{CellSenses};
ghost use Rattle.weigher.specs.Singles.{single_moves};
ghost use Rattle.replay.specs.declared.failure.Failure.TheVariants.{Memory};
ghost use Rattle.replay.specs.Entries.{entry_of};
ghost use Rattle.replay.specs.Replays.{Replayed, Unlisted, Listable};
ghost use Rattle.replay.specs.Runs.{tended, run_on, account_of, declined_at, Explains};

use crate::failure::{Failure, Flaw};
use crate::input::Recording;
use crate::journal::{Entry, Journal};
use std::alloc::{AllocError, Global};
use weigher::{Cell, Sensed, Weigher};

// The whole listing of an input.
pub fn replay(heap: Global, text: &str) -> Result<String, Failure>
    ensures listed { IfOk result (λ s. Replayed text.now (string_bytes s)) }
    ensures refused { IfErr result (Unlisted text.now) }
    ensures taken { Listable text.now → IfErr result (λ f. f ≡ Memory) }
{
    let recording = Recording::read(heap, text)?;
    let journal = keep_journal(heap, recording)?;
    Ok(journal.to_string(heap)?)
}

// What the cell tells of a recording.
pub fn keep_journal(heap: Global, recording: Recording) -> Result<Journal, Failure>
    ensures made { IfOk result (λ j. (declined_at recording ≡ None) × (j ≡ account_of recording)) }
    ensures refused { IfErr result (Explains (declined_at recording)) }
{
    let Recording {
        capacity,
        tolerance,
        order,
        samples,
    } = recording;
    let count = samples.len();
    let mut cell = Cell::new(samples, capacity, tolerance).map_err(|declined| Failure::at(
        1,
        Flaw::Declined(declined),
    ))?;
    cell.begin(order)
        .map_err(|declined| Failure::at(2, Flaw::Declined(declined)))?;
    let entries = tend_all(heap, &mut cell, count)?;
    let view = cell.look();
    Ok(Journal {
        entries,
        zero: view.zero,
        tare: view.tare,
    })
}

// Tends a new cell until the order has ended, once for each sample at most. A cell does not tell how many samples it has,
// so they are counted before they move into it.
fn tend_all(heap: Global, cell: &mut Cell, count: usize) -> Result<Vec<Entry>, AllocError>
    requires fresh { cell.old.sensor.taken ≡ 0 }
    requires all { count ≡ length cell.old.sensor.samples.items }
    ensures made { IfOk result (λ v. (v.items, scale_of cell.new.base) ≡ run_on cell.old.sensor.tolerance cell.old.sensor.samples.items [] count 0 (scale_of cell.old.base)) }
{
    let mut entries = Vec::new(heap);
    for number in 1..=count {
        let entry = tend_once(cell, number);
        entries.push(entry)?;
        if entry.is_last() {
            break;
        }
    }
    Ok(entries)
}

fn tend_once(cell: &mut Cell, number: usize) -> Entry
    ensures told { (result.told, scale_of cell.new.base) ≡ tended cell.old.sensor.tolerance cell.old.sensor.samples.items cell.old.sensor.taken (scale_of cell.old.base) }
    ensures entry { result ≡ entry_of number result.told (scale_of cell.new.base) }
    ensures sensor { single_moves CellSenses cell.old cell.new }
{
    let told = cell.tend();
    let view = cell.look();
    Entry {
        number,
        load: view.load,
        sensed: Sensed::from(view),
        told,
    }
}
