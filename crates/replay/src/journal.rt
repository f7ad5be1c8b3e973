// What a replay tells: an entry for each tend.
ghost use Rattle.std.specs.Prelude.{◌≡◌, not, Some};
ghost use Rattle.replay.specs.Entries.{entry_line, is_waiting};

use std::fmt;
use std::marker::Model;
use weigher::{Sensed, Told};

// One tend: its number from 1 on, the load and the sensor after it, and what was told.
#[derive(Clone, Copy)]
pub struct Entry {
    pub number: usize,
    pub load: i32,
    pub sensed: Sensed,
    pub told: Told,
}

impl Entry {
    // Whether the order has ended with this tend, or none stood.
    pub fn is_last(&self) -> bool
        ensures { result ≡ not (is_waiting self.now.told) }
    {
        self.told != Told::Waiting
    }
}

impl fmt::Display for Entry {
    ghost output = { λ e. Some (entry_line e) };

    fn fmt<W: fmt::Write>(&self, f: &mut fmt::Formatter<W>) -> fmt::Result {
        let Entry {
            number,
            load,
            sensed,
            told,
        } = *self;
        let sensed = sensed.word();
        let told = told.word();
        write!(f, "{number} {load} {sensed} {told}")
    }
}

#[derive(Drop)]
pub struct Journal {
    pub entries: Vec<Entry>,
    pub zero: i32,
    pub tare: i32,
}

impl Model for Journal {
    ghost use Rattle.replay.specs.Listing.{Account};

    ghost Value = { Account };

    ghost view = { λ j. record { entries = j.entries.items; zero = j.zero; tare = j.tare } };
}

impl fmt::Display for Journal {
    ghost use Rattle.replay.specs.Listing.{listing_of};

    ghost output = { λ j. Some (listing_of j) };

    fn fmt<W: fmt::Write>(&self, f: &mut fmt::Formatter<W>) -> fmt::Result {
        for entry in self.entries.as_slice() {
            writeln!(f, "{entry}")?;
        }
        let zero = self.zero;
        let tare = self.tare;
        writeln!(f, "zero {zero} tare {tare}")
    }
}
