// The sensor of a weigher: what tells one kind from another.
ghost use Rattle.std.specs.Prelude.{◌≡◌, ℕ, ◌≤◌, Bool, ℤ, is_none};
ghost use Rattle.weigher.specs.Readings.{load_read, still_read};

use crate::load::Load;
use crate::reading::Reading;

pub trait Sensor {
    // What one tend does to the sensor, from a load in grams on: the load, stillness and fault that it leaves.
    ghost senses: { Self → ℤ → Self → ℤ → Bool → Bool → Type 0 };

    // The most tends that an order can take.
    ghost PATIENCE: { ℕ };

    const PATIENCE: u8;

    // Reads once, with this load before. No reading is a fault: then the load stays, and the weigher is not still.
    fn sense(&mut self, load: Load) -> Option<Reading>
        ensures { senses self.old load.grams self.new (load_read load.grams result) (still_read result) (is_none result) };

    ghost patient: { 1 ≤ PATIENCE };

    ghost bounded: { PATIENCE ≤ 250 };
}
