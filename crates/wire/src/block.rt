// The measuring block, read and written, and the bytes of its image.
ghost use Rattle.std.specs.Prelude.{◌≡◌, to_bits};
ghost use Rattle.std.specs.Float.{binary32};
ghost use Rattle.wire.specs.Blocks.{word_bytes, halves_of, strip_bytes, read_image, value_in, mask_in, command_in};
ghost use Rattle.wire.specs.Orders.{ordered};

use crate::order::Order;
use std::num::f32_to_bits_with_nan;

// What the controller reads: the value, the status word and the response word.
#[derive(Clone, Copy, Debug)]
pub struct MeasuringBlockRead {
    pub value: f32,
    pub status: u16,
    pub response: u16,
}

// What the controller writes: the value's bits, the channel mask and the command word.
#[derive(Clone, Copy, PartialEq, Eq, Debug)]
pub struct MeasuringBlockWritten {
    pub value: u32,
    pub mask: u16,
    pub command: u16,
}

// The two words of a float's bits as they go out, first and second.
#[tactic(auto, using(std::proofs::lemmas::Nat::and_mask))]
pub fn halves(value: f32, order: Order) -> (u16, u16)
    ensures { result ≡ halves_of order (to_bits binary32 value) }
{
    let bits = f32_to_bits_with_nan(value);
    let high = (bits >> 16) as u16;
    let low = (bits & 0xffff) as u16;
    if order.swaps_words() {
        (low, high)
    } else {
        (high, low)
    }
}

// The two bytes of a word as they go out.
fn word_bytes(word: u16, order: Order) -> [u8; 2]
    ensures { result ≡ word_bytes order word }
{
    if order.swaps_bytes() {
        word.to_le_bytes()
    } else {
        word.to_be_bytes()
    }
}

// The four bytes of a float.
#[tactic(auto, unfolding(crate::specs::Blocks::strip_bytes))]
pub fn strip(value: f32, order: Order) -> [u8; 4]
    ensures { result ≡ strip_bytes order (to_bits binary32 value) }
{
    let (first, second) = halves(value, order);
    let [a, b] = word_bytes(first, order);
    let [c, d] = word_bytes(second, order);
    [a, b, c, d]
}

// A block of eight bytes turned between order 0 and the given order, either way.
// The value fills the first four bytes, and only there do words trade places; bytes do so in each word.
fn order_block(block: [u8; 8], order: Order) -> [u8; 8]
    ensures { result ≡ ordered order block }
{
    let [a, b, c, d, e, f, g, h] = block;
    let [a, b, c, d] = if order.swaps_words() {
        [c, d, a, b]
    } else {
        [a, b, c, d]
    };
    if order.swaps_bytes() {
        [b, a, d, c, f, e, h, g]
    } else {
        [a, b, c, d, e, f, g, h]
    }
}

impl MeasuringBlockRead {
    // The eight bytes of the read image.
    #[tactic(auto, unfolding(crate::specs::Blocks::strip_bytes, crate::specs::Blocks::read_image))]
    pub fn to_image(self, order: Order) -> [u8; 8]
        ensures { result ≡ read_image order (to_bits binary32 self.value) self.status self.response }
    {
        let [v0, v1, v2, v3] = strip(self.value, order);
        let [s0, s1] = word_bytes(self.status, order);
        let [r0, r1] = word_bytes(self.response, order);
        [v0, v1, v2, v3, s0, s1, r0, r1]
    }
}

impl MeasuringBlockWritten {
    // The fields of a written image.
    #[tactic(auto, unfolding(crate::specs::Blocks::value_in, crate::specs::Blocks::mask_in, crate::specs::Blocks::command_in))]
    pub fn from_image(image: [u8; 8], order: Order) -> MeasuringBlockWritten
        ensures value { result.value ≡ value_in order image }
        ensures mask { result.mask ≡ mask_in order image }
        ensures command { result.command ≡ command_in order image }
    {
        let [v0, v1, v2, v3, m0, m1, c0, c1] = order_block(image, order);
        MeasuringBlockWritten {
            value: u32::from_be_bytes([v0, v1, v2, v3]),
            mask: u16::from_be_bytes([m0, m1]),
            command: u16::from_be_bytes([c0, c1]),
        }
    }
}
