// Whole numbers as 32-bit floats, and back.
ghost use Rattle.std.specs.Prelude.{◌≡◌, ◌≤◌, ℤ, Some, MatchOption, unsigned_abs};
ghost use Rattle.std.specs.Float.Ieee.{of_int};
ghost use Rattle.std.specs.Float.{binary32};
ghost use Rattle.wire.specs.Floats.{whole_of, bits_of, largest, Whole};

use std::num::{f32_to_bits_with_nan, nearest_i64_to_f32, saturating_f32_to_i32};

// The largest whole number that a parameter can be, either way.
const LARGEST: u32 = 16_777_215;

// Every pattern above this one, its sign aside, is a NaN's.
const INFINITY: u32 = 0x7f80_0000;

// The float nearest to a whole number: the number itself for every weight. 0 has no sign.
pub fn float_of(number: i64) -> f32
    ensures { result ≡ of_int binary32 number }
{
    nearest_i64_to_f32(number)
}

// The bits that a whole number is sent as.
#[tactic(auto, using(crate::proofs::Wholes::sent_and_read))]
pub fn bits_of(number: i64) -> u32
    ensures value { result ≡ bits_of number }
    ensures back { unsigned_abs number ≤ largest → whole_of result ≡ Some number }
{
    f32_to_bits_with_nan(float_of(number))
}

// The whole number that a parameter is, or nothing for a fraction, a number too large, an infinity or a NaN.
// A NaN is told by its bits, so that no float is made of it.
#[tactic(auto, using(crate::proofs::Wholes::whole_facts))]
pub fn whole(bits: u32) -> Option<i32>
    ensures value { result ≡ whole_of bits }
    ensures exact { MatchOption result ((z : ℤ) → Whole bits z → ⊥) (λ z. Whole bits z) }
{
    if bits % 0x8000_0000 > INFINITY {
        return None;
    }
    let value = f32::from_bits(bits);
    let number = saturating_f32_to_i32(value);
    if number.unsigned_abs() <= LARGEST && float_of(i64::from(number)) == value {
        Some(number)
    } else {
        None
    }
}
