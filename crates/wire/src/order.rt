// The order setting: how the words and bytes of a block are arranged on the wire.
ghost use Rattle.std.specs.Prelude.{◌≡◌};
ghost use Rattle.wire.specs.Settings.{order_of};
ghost use Rattle.wire.specs.Orders.{swaps_bytes, swaps_words};

use crate::setting::BadSetting;

// Order 0 has the high byte of each word and the high word of a float first. The others swap
// the bytes of every word, the two words of a float alone, or both.
#[derive(Clone, Copy, PartialEq, Eq, Debug)]
pub enum Order {
    Plain,
    BytesSwapped,
    WordsSwapped,
    BothSwapped,
}

// The order with this number, or the refusal of a number above 3.
impl TryFrom<u8> for Order {
    type Error = BadSetting;

    ghost try_from_gives = { λ number order. order ≡ order_of number };

    fn try_from(number: u8) -> Result<Order, BadSetting> {
        match number {
            0 => Ok(Order::Plain),
            1 => Ok(Order::BytesSwapped),
            2 => Ok(Order::WordsSwapped),
            3 => Ok(Order::BothSwapped),
            _ => Err(BadSetting::UnknownOrder),
        }
    }
}

impl Order {
    // Whether each word has its low byte first.
    pub(crate) fn swaps_bytes(self) -> bool
        ensures { result ≡ swaps_bytes self }
    {
        matches!(self, Order::BytesSwapped | Order::BothSwapped)
    }

    // Whether a float has its low word first.
    pub(crate) fn swaps_words(self) -> bool
        ensures { result ≡ swaps_words self }
    {
        matches!(self, Order::WordsSwapped | Order::BothSwapped)
    }
}
