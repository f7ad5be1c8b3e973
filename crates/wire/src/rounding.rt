// A weight shown in whole steps of the increment.
ghost use Rattle.std.specs.Prelude.{◌≡◌, ◌+◌, ◌*◌, ◌≤◌};
ghost use Rattle.wire.specs.Rounding.{steps, rounded, Nearest};

use crate::increment::Increment;

// The multiple of the increment that is nearest to a size, a half going up.
#[tactic(auto, using(crate::proofs::Steps::listed_range))]
fn nearest_multiple(size: u32, increment: Increment) -> u64
    ensures value { result ≡ increment.grams * steps increment.grams size }
    ensures bound { result ≤ size + increment.grams }
{
    let step = u64::from(increment.grams());
    step * ((2 * u64::from(size) + step) / (2 * step))
}

// The multiple of the increment that is nearest to the weight, a half going away from zero:
// it is worked out on the size alone, so that a weight below zero is rounded as one above.
#[tactic(auto, using(crate::proofs::Steps::listed_range), unfolding(crate::specs::Rounding::rounded))]
pub fn round(weight: i32, increment: Increment) -> i64
    ensures value { result ≡ rounded increment.grams weight }
    ensures nearest { Nearest increment.grams weight result }
{
    // The cast is proved to fit, and no `From` leads from a u64 to an i64.
    let size = nearest_multiple(weight.unsigned_abs(), increment) as i64;
    if weight < 0 { -size } else { size }
}
