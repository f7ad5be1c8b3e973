// A load in the range that every weigher keeps to.
ghost use Rattle.std.specs.Prelude.{◌≡◌, ◌≤◌, true, false, MatchOption, nat_le, unsigned_abs};

#[derive(Clone, Copy, PartialEq, Eq)]
pub struct Load {
    pub(crate) grams: i32,
    ghost in_range: { unsigned_abs grams ≤ 4000000 },
}

impl Load {
    // The furthest that a load goes from 0.
    pub(crate) const LIMIT: i32 = 4_000_000;

    pub(crate) const ZERO: Load = Load { grams: 0 };

    // The load of so many grams, or none out of range.
    pub(crate) fn new(grams: i32) -> Option<Load>
        ensures { MatchOption result (nat_le (unsigned_abs grams) 4000000 ≡ false) (λ load. (nat_le (unsigned_abs grams) 4000000 ≡ true) × (load.grams ≡ grams)) }
    {
        if grams.unsigned_abs() <= Self::LIMIT.unsigned_abs() {
            Some(Load { grams })
        } else {
            None
        }
    }
}
