// The interface that every weigher meets, and what its four calls mean.
ghost use Rattle.std.specs.Prelude.{◌≡◌, ℕ};
ghost use Rattle.weigher.specs.Answers.{decline_of};
ghost use Rattle.weigher.specs.Kind.{Kind, IsLawful};
ghost use Rattle.weigher.specs.Scale.{view_of};
ghost use Rattle.weigher.specs.Rules.{begun, worked, sensed, dropped};

use crate::answers::{Declined, Told, View};
use crate::orders::Order;

pub trait Weigher {
    // The meaning, the patience, and what the sensor may do.
    ghost kind: { Kind Self };

    // The most tends that an order can take.
    ghost PATIENCE: { ℕ };

    const PATIENCE: u8;

    // The constant PATIENCE by a call, as it was had before clauses could name it.
    fn longest() -> u8
        ensures { result ≡ kind.patience };

    fn look(&self) -> View
        ensures { result ≡ view_of (kind.meaning self.now) };

    fn begin(&mut self, order: Order) -> Result<(), Declined>
        ensures work { (decline_of result, kind.meaning self.new) ≡ begun kind.patience order (kind.meaning self.old) }
        ensures sensor { kind.keeps self.old self.new };

    // The sensor moves first; what it then reads is what the order is worked on with.
    fn tend(&mut self) -> Told
        ensures work { (result, kind.meaning self.new) ≡ worked (sensed (kind.meaning self.old) (kind.meaning self.new)) }
        ensures sensor { kind.moves self.old self.new };

    fn drop(&mut self) -> Result<(), Declined>
        ensures work { (decline_of result, kind.meaning self.new) ≡ dropped (kind.meaning self.old) }
        ensures sensor { kind.keeps self.old self.new };

    ghost lawful: { IsLawful kind };

    ghost constant: { PATIENCE ≡ kind.patience };
}
