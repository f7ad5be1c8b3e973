// The ramp: a load that moves by a fixed step towards a target.
ghost use Rattle.std.specs.Prelude.{◌≡◌, pos, ◌≤ℤ◌, IfOk};
ghost use Rattle.weigher.specs.Answers.{decline_of};
ghost use Rattle.weigher.specs.Bases.{scale_of};
ghost use Rattle.weigher.specs.Fresh.{fresh};
ghost use Rattle.weigher.specs.Ramp.{ramp_refusal, towards};
ghost use Rattle.std.proofs.Common.{rules};

use crate::answers::Declined;
use crate::base::Base;
use crate::load::Load;
use crate::reading::Reading;
use crate::sensor::Sensor;
use crate::single::Single;

// What moves the load of a ramp.
#[derive(Clone, Copy)]
pub struct RampSensor {
    step: i32,
    target: Load,
    ghost step_positive: { pos 1 ≤ℤ step },
    ghost step_in_range: { step ≤ℤ pos 1000 },
}

pub type Ramp = Single<RampSensor>;

impl Single<RampSensor> {
    pub const CAPACITY: u32 = 15_000;

    pub fn new(start: i32, step: i32, target: i32) -> Result<Ramp, Declined>
        ensures declines { decline_of result ≡ ramp_refusal start step target }
        ensures made { IfOk result (λ w. (w.sensor.step ≡ step) × (w.sensor.target.grams ≡ target) × (scale_of w.base ≡ fresh start 15000)) }
    {
        let start = Load::new(start).ok_or(Declined::BadRamp)?;
        let target = Load::new(target).ok_or(Declined::BadRamp)?;
        if step < 1 || step > 1000 {
            return Err(Declined::BadRamp);
        }
        Ok(Single {
            base: Base::new(start, Self::CAPACITY),
            sensor: RampSensor { step, target },
        })
    }
}

impl RampSensor {
    // The load one step on: towards the target and not past it.
    fn next_load(&self, load: Load) -> Load
        ensures { result.grams ≡ towards self.now.step self.now.target.grams load.grams }
    {
        let target = self.target.grams;
        if load.grams < target {
            return Load {
                grams: (load.grams + self.step).min(target),
            };
        }
        Load {
            grams: (load.grams - self.step).max(target),
        }
    }
}

impl Sensor for RampSensor {
    ghost use Rattle.weigher.specs.Ramps.{RampSenses};

    ghost senses = { RampSenses };

    ghost PATIENCE = { 50 };

    const PATIENCE: u8 = 50;

    ghost patient = { Prim.search rules };

    ghost bounded = { Prim.search rules };

    fn sense(&mut self, load: Load) -> Option<Reading> {
        let next = self.next_load(load);
        let still = next == load;
        Some(Reading { load: next, still })
    }
}
