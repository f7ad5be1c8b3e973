// The settings of a board: the byte and word order of its images, and the increment of rounded weights.
ghost use Rattle.std.specs.Prelude.{◌≡◌, IfOk};
ghost use Rattle.board.specs.Settings.{setting_refusal, refusal_of, number_of};

use wire::{BadSetting, Increment, Order};

#[derive(Clone, Copy)]
pub struct Settings {
    pub(crate) order: Order,
    pub(crate) increment: Increment,
}

impl Settings {
    // The order is looked at first.
    pub fn new(order: u8, increment: u16) -> Result<Settings, BadSetting>
        ensures declines { refusal_of result ≡ setting_refusal order increment }
        ensures made { IfOk result (λ s. (number_of s.order ≡ order) × (s.increment.grams ≡ increment)) }
    {
        let order = Order::try_from(order)?;
        let increment = Increment::try_from(increment)?;
        Ok(Settings { order, increment })
    }

    // The byte and word order of the board's images.
    pub fn order(self) -> Order
        ensures { result ≡ self.order }
    {
        self.order
    }
}
