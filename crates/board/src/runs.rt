// A run: a new board, a list of calls made on it in order, and the journal of what they were answered.
ghost use Rattle.std.specs.Prelude.{◌≡◌, length, take, drop, IfOk};
ghost use Rattle.board.specs.Boards.{look_of};
ghost use Rattle.board.specs.Journals.{Step, Played};
ghost use Rattle.board.specs.Promise.{Promise};

use crate::address::Address;
use crate::board::Board;
use crate::journal::{Answer, Call, Entry, Journal};
use crate::look::Look;
use crate::setting::Settings;
use std::alloc::{AllocError, Global};
use weigher::Weigher;

// The most bytes that a call is lent. A strip that is longer fits neither an image nor a reply, so it is answered like one of this length.
const MOST: usize = 64;

// The bytes of a strip that is known to have so many.
fn bytes_of<const N: usize>(strip: &[u8]) -> [u8; N]
    requires { length strip.now ≡ N }
    ensures { result ≡ strip.now }
{
    <[u8; N]>::try_from(strip).unwrap()
}

impl<W: Weigher> Board<W> {
    // A scan on these strips.
    fn scan_into(&mut self, write: &[u8], read: &mut [u8]) -> Answer
        ensures { Step W.kind (Call.Scan write.entry (length read.old)) result self.old self.new }
    {
        match self.scan(write, read) {
            Err(declined) => Answer::Declined(declined),
            Ok(note) => Answer::Scanned {
                write: bytes_of(write),
                read: bytes_of(read),
                note,
                load: self.load(),
            },
        }
    }

    // An acyclic read into this strip.
    fn read_into(&self, address: Address, strip: &mut [u8]) -> Answer
        ensures { Step W.kind (Call.Read address (length strip.old)) result self.now self.now }
    {
        match self.read(address, strip) {
            Err(declined) => Answer::Declined(declined),
            Ok(()) => Answer::Replied(bytes_of(strip)),
        }
    }

    // Makes a call, with strips that are lent here.
    fn call(&mut self, call: Call<'_>) -> Answer
        ensures { Step W.kind call.entry result self.old self.new }
    {
        // Lent by its length from a fixed array, since a call takes no memory.
        let mut strip = [0u8; MOST];
        match call {
            Call::Scan { write, read } => self.scan_into(write, &mut strip[0..read.min(MOST)]),
            Call::Read { address, reply } => {
                self.read_into(address, &mut strip[0..reply.min(MOST)])
            }
            Call::Look => Answer::Looked(self.look()),
        }
    }

    // Makes a call, and enters what it was answered and what look tells then.
    fn perform(&mut self, call: Call<'_>) -> Entry
        ensures step { Step W.kind call.entry result.answer self.old self.new }
        ensures after { result.after ≡ look_of self.new.inner (W.kind.meaning self.new.weigher) }
    {
        let answer = self.call(call);
        Entry {
            answer,
            after: self.look(),
        }
    }

    // Makes the calls in order, as many as the journal has room for.
    fn play(&mut self, calls: &[Call<'_>], journal: &mut [Entry])
        ensures played { Played W.kind self.old (take (length journal.old) calls.now) (take (length calls.now) journal.new) self.new }
        ensures rest { drop (length calls.now) journal.new ≡ drop (length calls.now) journal.old }
    {
        // Of a `zip` over `iter_mut` a proof does not know what was written, and one of the two by `enumerate` with the other
        // by `get` is no plainer, so both are reached by their index.
        let count = calls.len().min(journal.len());
        for i in 0..count {
            journal[i] = self.perform(calls[i]);
        }
    }
}

// Makes a board on the weigher and the calls on it in order, as many as the journal has room for, and enters each in the journal.
// The answer is what look tells before the first call.
pub fn run_into<W: Weigher + Drop>(
    weigher: W,
    settings: Settings,
    calls: &[Call<'_>],
    journal: &mut [Entry],
) -> Look
    ensures promise { Promise W.kind settings weigher (take (length journal.old) calls.now) result (take (length calls.now) journal.new) }
    ensures rest { drop (length calls.now) journal.new ≡ drop (length calls.now) journal.old }
{
    let mut board = Board::new(weigher, settings);
    let start = board.look();
    board.play(calls, journal);
    start
}

// Makes a board on the weigher, makes the calls on it in order, and answers the journal.
pub fn run<W: Weigher + Drop>(
    heap: Global,
    weigher: W,
    settings: Settings,
    calls: &[Call<'_>],
) -> Result<Journal, AllocError>
    ensures { IfOk result (λ j. Promise W.kind settings weigher calls.now j.start j.entries.items) }
{
    let mut entries = vec![in heap; Entry::BLANK; calls.len()]?;
    let start = run_into(weigher, settings, calls, entries.as_mut_slice());
    Ok(Journal { start, entries })
}
