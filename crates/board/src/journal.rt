// Calls on a board, and the journal of what they were answered.
use crate::address::Address;
use crate::declined::Declined;
use crate::look::Look;
use crate::note::Note;

// A call, with its write image and the length of the strip that it is lent to read into.
#[derive(Clone, Copy)]
pub enum Call<'a> {
    Scan { write: &'a [u8], read: usize },
    Read { address: Address, reply: usize },
    Look,
}

// What a call was answered.
#[derive(Clone, Copy)]
pub enum Answer {
    // The load is that of the weigher after the scan.
    Scanned {
        write: [u8; 8],
        read: [u8; 8],
        note: Note,
        load: i32,
    },
    Replied([u8; 4]),
    Looked(Look),
    Declined(Declined),
}

// One call of a journal.
#[derive(Clone, Copy)]
pub struct Entry {
    pub answer: Answer,
    // What look tells after the call.
    pub after: Look,
}

impl Entry {
    // What a journal holds where no call has been entered yet.
    pub const BLANK: Entry = Entry {
        answer: Answer::Replied([0; 4]),
        after: Look {
            open: None,
            zero: 0,
            tare: 0,
            deviation: 0,
        },
    };
}

#[derive(Drop)]
pub struct Journal {
    // What look tells before the first call.
    pub start: Look,
    pub entries: Vec<Entry>,
}
