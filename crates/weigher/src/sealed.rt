// The sealed weigher: any weigher without tare now and zero now. It passes its calls on, as `Single` does, but for one test in
// begin; there is no plainer form than a line for each.
ghost use Rattle.std.specs.Prelude.{◌≡◌};
ghost use Rattle.std.proofs.Common.{rules};

use crate::answers::{Declined, Told, View};
use crate::interface::Weigher;
use crate::orders::Order;

#[derive(Drop)]
pub struct Sealed<W> {
    below: W,
}

impl<W: Weigher> Sealed<W> {
    pub fn new(below: W) -> Sealed<W>
        ensures { result.below ≡ below }
    {
        Sealed { below }
    }
}

impl<W: Weigher> Weigher for Sealed<W> {
    ghost use Rattle.weigher.specs.Seals.{sealed_kind};

    ghost kind = { sealed_kind W.kind };

    ghost PATIENCE = { W.PATIENCE };

    const PATIENCE: u8 = W::PATIENCE;

    ghost lawful = { Prim.search rules };

    ghost constant = { Prim.search rules };

    fn longest() -> u8 {
        W::longest()
    }

    fn look(&self) -> View {
        self.below.look()
    }

    // That an order stands is declined first, by the weigher below.
    fn begin(&mut self, order: Order) -> Result<(), Declined> {
        if order.is_immediate() && !self.below.look().standing {
            return Err(Declined::OrderNotKnown);
        }
        self.below.begin(order)
    }

    fn tend(&mut self) -> Told {
        self.below.tend()
    }

    fn drop(&mut self) -> Result<(), Declined> {
        self.below.drop()
    }
}
