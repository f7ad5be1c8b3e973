// The orders that a weigher can be given, and the one that stands.
ghost use Rattle.std.specs.Prelude.{◌≡◌};
ghost use Rattle.weigher.specs.Orders.{needs_stillness, is_immediate};

#[derive(Clone, Copy, PartialEq, Eq, Debug)]
pub enum Order {
    TareWhenStill,
    ZeroWhenStill,
    TareNow,
    ZeroNow,
    ClearTare,
    // The value to preset, in grams.
    PresetTare(i32),
    Settle,
}

impl Order {
    // Whether the order waits until the weigher is still.
    pub fn needs_stillness(self) -> bool
        ensures { result ≡ needs_stillness self }
    {
        match self {
            Order::TareWhenStill | Order::ZeroWhenStill | Order::Settle => true,
            _ => false,
        }
    }

    // Tare now and zero now: the two that a sealed weigher does not know.
    pub fn is_immediate(self) -> bool
        ensures { result ≡ is_immediate self }
    {
        matches!(self, Order::TareNow | Order::ZeroNow)
    }
}

// An order that was begun and has not ended, with the tends it has left.
#[derive(Clone, Copy, PartialEq, Eq, Debug)]
pub struct Standing {
    pub order: Order,
    pub left: u8,
}
