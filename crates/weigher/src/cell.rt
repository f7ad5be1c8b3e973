// The cell: recorded samples of a load cell, one to a tend.
ghost use Rattle.std.specs.Prelude.{◌≡◌, ◌+◌, ◌<◌, ◌≤◌, true, not, length, pos, is_none, IfOk, IfSome, vec_len, slice_index_or, unsigned_abs};
ghost use Rattle.weigher.specs.Answers.{decline_of};
ghost use Rattle.weigher.specs.Bases.{scale_of};
ghost use Rattle.weigher.specs.Fresh.{fresh};
ghost use Rattle.weigher.specs.Cell.{cell_refusal, close, steady, Steady, settled, readable, taken_next};
ghost use Rattle.std.proofs.Common.{rules};

use crate::answers::Declined;
use crate::base::Base;
use crate::load::Load;
use crate::reading::Reading;
use crate::sensor::Sensor;
use crate::single::Single;

// How many samples stillness is judged by.
const WINDOW: usize = 8;

// The recorded samples of a cell.
#[derive(Drop)]
pub struct CellSensor {
    samples: Vec<i32>,
    // How many of the samples have been taken.
    taken: usize,
    tolerance: i32,
    ghost taken_within: { taken ≤ vec_len samples },
}

pub type Cell = Single<CellSensor>;

impl Single<CellSensor> {
    pub fn new(samples: Vec<i32>, capacity: i32, tolerance: i32) -> Result<Cell, Declined>
        ensures declines { decline_of result ≡ cell_refusal capacity tolerance }
        ensures made { IfOk result (λ w. (w.sensor.samples.items ≡ samples.items) × (w.sensor.taken ≡ 0) × (w.sensor.tolerance ≡ tolerance) × (scale_of w.base ≡ fresh (pos 0) (unsigned_abs capacity))) }
    {
        if capacity < 1 || capacity > Load::LIMIT {
            return Err(Declined::BadCapacity);
        }
        if tolerance < 0 || tolerance > 1000 {
            return Err(Declined::BadTolerance);
        }
        Ok(Single {
            base: Base::new(Load::ZERO, capacity.unsigned_abs()),
            sensor: CellSensor {
                samples,
                taken: 0,
                tolerance,
            },
        })
    }
}

impl CellSensor {
    // Whether the latest eight samples exist and are steady.
    fn is_settled(&self) -> bool
        ensures { result ≡ settled self.now.tolerance self.now.samples.items self.now.taken }
    {
        if self.taken < WINDOW {
            return false;
        }
        let samples = self.samples.as_slice();
        is_steady(&samples[self.taken - WINDOW..self.taken], self.tolerance)
    }
}

impl Sensor for CellSensor {
    ghost use Rattle.weigher.specs.Cells.{CellSenses};

    ghost senses = { CellSenses };

    ghost PATIENCE = { 200 };

    const PATIENCE: u8 = 200;

    ghost patient = { Prim.search rules };

    ghost bounded = { Prim.search rules };

    // Takes the next sample. One that is missing or out of range is a fault.
    fn sense(&mut self, _load: Load) -> Option<Reading> {
        let sample = *self.samples.get(self.taken)?;
        self.taken += 1;
        let load = Load::new(sample)?;
        let still = self.is_settled();
        Some(Reading { load, still })
    }
}

fn is_steady(window: &[i32], tolerance: i32) -> bool
    ensures value { result ≡ steady tolerance window.now }
    ensures says { result ≡ true → Steady tolerance window.now }
    ensures only { 0 < length window.now → Steady tolerance window.now → result ≡ true }
{
    let mut smallest = Load::LIMIT;
    let mut largest = -Load::LIMIT;
    for sample in window {
        smallest = smallest.min(*sample);
        largest = largest.max(*sample);
    }
    is_close(smallest, largest, tolerance)
}

// Whether both lie in range, and the larger at most the tolerance above the smaller.
fn is_close(low: i32, high: i32, tolerance: i32) -> bool
    ensures { result ≡ close tolerance low high }
{
    if low < -Load::LIMIT || high > Load::LIMIT {
        return false;
    }
    i64::from(high) - i64::from(low) <= i64::from(tolerance)
}
