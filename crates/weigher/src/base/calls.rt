// What all kinds of weigher do alike: look, begin, carrying an order out, counting tends, and drop.
ghost use Rattle.std.specs.Prelude.{◌≡◌, ◌≤◌, true, is_none};
ghost use Rattle.weigher.specs.Answers.{decline_of};
ghost use Rattle.weigher.specs.Scale.{view_of};
ghost use Rattle.weigher.specs.Rules.{begun, dropped, preset_fits, carried, tared, zeroed, worked, sensed, SameReading};
ghost use Rattle.weigher.specs.Bases.{scale_of};
ghost use Rattle.weigher.specs.Fresh.{fresh};

use super::Base;
use crate::answers::{Declined, Told, View};
use crate::load::Load;
use crate::orders::{Order, Standing};
use crate::reading::Reading;

impl Base {
    ghost use Rattle.weigher.specs.Readings.{load_read, still_read};

    // No order stands, zero and tare are 0, and the weigher is moving and without fault.
    pub(crate) fn new(load: Load, capacity: u32) -> Base
        requires { (1 ≤ capacity) × (capacity ≤ 4000000) }
        ensures { scale_of result ≡ fresh load.grams capacity }
    {
        Base {
            load,
            zero: 0,
            tare: 0,
            still: false,
            fault: false,
            standing: None,
            capacity,
        }
    }

    pub(crate) fn load(&self) -> Load
        ensures { result ≡ self.now.load }
    {
        self.load
    }

    pub(crate) fn look(&self) -> View
        ensures { result ≡ view_of (scale_of self.now) }
    {
        View {
            load: self.load.grams,
            zero: self.zero,
            tare: self.tare,
            still: self.still,
            fault: self.fault,
            capacity: self.capacity,
            standing: self.standing.is_some(),
        }
    }

    pub(crate) fn begin(&mut self, patience: u8, order: Order) -> Result<(), Declined>
        requires { 1 ≤ patience }
        ensures { (decline_of result, scale_of self.new) ≡ begun patience order (scale_of self.old) }
    {
        if self.standing.is_some() {
            return Err(Declined::OrderStands);
        }
        if !preset_fits(order, self.capacity) {
            return Err(Declined::PresetOutside);
        }
        self.standing = Some(Standing {
            order,
            left: patience,
        });
        Ok(())
    }

    pub(crate) fn drop(&mut self) -> Result<(), Declined>
        ensures { (decline_of result, scale_of self.new) ≡ dropped (scale_of self.old) }
    {
        if self.standing.is_none() {
            return Err(Declined::NoOrderStands);
        }
        self.standing = None;
        Ok(())
    }

    // A tend in which the sensor read this, or nothing for a fault: then the load stays, and the weigher is not still.
    pub(crate) fn tend(&mut self, reading: Option<Reading>) -> Told
        ensures work { (result, scale_of self.new) ≡ worked (sensed (scale_of self.old) (scale_of self.new)) }
        ensures load { self.new.load.grams ≡ load_read self.old.load.grams reading }
        ensures still { self.new.still ≡ still_read reading }
        ensures fault { self.new.fault ≡ is_none reading }
    {
        self.sense(reading);
        let Some(Standing { order, left }) = self.standing else {
            return Told::Idle;
        };
        if !self.fault && (self.still || !order.needs_stillness()) {
            let told = self.carry_out(order);
            self.standing = None;
            return told;
        }
        if left == 1 {
            self.standing = None;
            return Told::Late;
        }
        self.standing = Some(Standing {
            order,
            left: left - 1,
        });
        Told::Waiting
    }

    // Takes over what the sensor read.
    fn sense(&mut self, reading: Option<Reading>)
        ensures load { self.new.load.grams ≡ load_read self.old.load.grams reading }
        ensures still { self.new.still ≡ still_read reading }
        ensures fault { self.new.fault ≡ is_none reading }
        ensures rest { scale_of self.new ≡ sensed (scale_of self.old) (scale_of self.new) }
        ensures order { self.new.standing ≡ self.old.standing }
    {
        self.fault = reading.is_none();
        self.still = false;
        if let Some(reading) = reading {
            self.load = reading.load;
            self.still = reading.still;
        }
    }

    // Each of these three says what the sensor read stays: without it the proof of `tend` did not close.
    fn carry_out(&mut self, order: Order) -> Told
        requires { preset_fits order self.old.capacity ≡ true }
        ensures work { (result, scale_of self.new) ≡ carried order (scale_of self.old) }
        ensures sensor { SameReading (scale_of self.old) (scale_of self.new) }
    {
        match order {
            Order::TareWhenStill | Order::TareNow => self.take_tare(),
            Order::ZeroWhenStill | Order::ZeroNow => self.take_zero(),
            Order::ClearTare => {
                self.tare = 0;
                Told::Done
            }
            Order::PresetTare(v) => {
                self.tare = v;
                Told::Done
            }
            Order::Settle => Told::Done,
        }
    }

    // Not possible below a gross weight of 0.
    fn take_tare(&mut self) -> Told
        ensures work { (result, scale_of self.new) ≡ tared (scale_of self.old) }
        ensures sensor { SameReading (scale_of self.old) (scale_of self.new) }
    {
        let gross = self.load.grams - self.zero;
        if gross < 0 {
            return Told::NotPossible;
        }
        self.tare = gross;
        Told::Done
    }

    // Not possible beyond a fiftieth of the capacity.
    fn take_zero(&mut self) -> Told
        ensures work { (result, scale_of self.new) ≡ zeroed (scale_of self.old) }
        ensures sensor { SameReading (scale_of self.old) (scale_of self.new) }
    {
        if self.load.grams.unsigned_abs() * 50 > self.capacity {
            return Told::NotPossible;
        }
        self.zero = self.load.grams;
        self.tare = 0;
        Told::Done
    }
}

fn preset_fits(order: Order, capacity: u32) -> bool
    ensures { result ≡ preset_fits order capacity }
{
    match order {
        Order::PresetTare(v) => 0 <= v && i64::from(v) <= i64::from(capacity),
        Order::TareWhenStill
        | Order::ZeroWhenStill
        | Order::TareNow
        | Order::ZeroNow
        | Order::ClearTare
        | Order::Settle => true,
    }
}
