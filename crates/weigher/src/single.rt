// A weigher with one sensor.
ghost use Rattle.std.proofs.Common.{rules};

use crate::answers::{Declined, Told, View};
use crate::base::Base;
use crate::interface::Weigher;
use crate::orders::Order;
use crate::sensor::Sensor;

#[derive(Clone, Copy, Drop)]
pub struct Single<S> {
    pub(crate) base: Base,
    pub(crate) sensor: S,
}

impl<S: Sensor> Weigher for Single<S> {
    ghost use Rattle.weigher.specs.Singles.{single_kind};

    ghost kind = { single_kind S.senses S.PATIENCE };

    ghost PATIENCE = { S.PATIENCE };

    const PATIENCE: u8 = S::PATIENCE;

    ghost lawful = { Prim.search rules };

    ghost constant = { Prim.search rules };

    fn longest() -> u8 {
        Self::PATIENCE
    }

    fn look(&self) -> View {
        self.base.look()
    }

    fn begin(&mut self, order: Order) -> Result<(), Declined> {
        self.base.begin(Self::PATIENCE, order)
    }

    fn tend(&mut self) -> Told {
        let reading = self.sensor.sense(self.base.load());
        self.base.tend(reading)
    }

    fn drop(&mut self) -> Result<(), Declined> {
        self.base.drop()
    }
}
