// The input: settings, an order, and the samples, each on its line.
ghost use Rattle.std.specs.Prelude.{MatchResult};
ghost use Rattle.replay.specs.Inputs.{Recorded};
ghost use Rattle.replay.specs.Refusals.{Unread};

use crate::failure::{Failure, Flaw};
use crate::words;
use std::alloc::Global;
use std::marker::Model;
use weigher::Order;

#[derive(Drop)]
pub struct Recording {
    pub capacity: i32,
    pub tolerance: i32,
    pub order: Order,
    pub samples: Vec<i32>,
}

impl Model for Recording {
    ghost use Rattle.replay.specs.Inputs.{Contents};

    ghost Value = { Contents };

    ghost view = { λ r. record { capacity = r.capacity; tolerance = r.tolerance; order = r.order; samples = r.samples.items } };
}

impl Recording {
    // The whole input is read before the first tend, so that a bad line late in it leaves no listing half written.
    pub fn read(heap: Global, text: &str) -> Result<Recording, Failure>
        ensures { MatchResult result (Recorded text.now) (Unread text.now) }
    {
        let mut lines = text.lines();
        let first = lines.next().ok_or(Failure::at(1, Flaw::MissingLine))?;
        let (capacity, tolerance) = words::settings(first).ok_or(Failure::at(1, Flaw::NoSettings))?;
        let second = lines.next().ok_or(Failure::at(2, Flaw::MissingLine))?;
        let order = words::order(second).map_err(|flaw| Failure::at(2, flaw))?;
        // The samples stand from line 3 on.
        let mut samples = Vec::new(heap);
        for (number, line) in (3..).zip(lines) {
            let sample = words::number(line).ok_or(Failure::at(number, Flaw::NoNumber))?;
            samples.push(sample)?;
        }
        Ok(Recording {
            capacity,
            tolerance,
            order,
            samples,
        })
    }
}
