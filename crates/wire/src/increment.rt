// The increment setting: the grams by which a rounded weight moves.
ghost use Rattle.std.specs.Prelude.{◌≡◌, T};
ghost use Rattle.wire.specs.Increments.{listed};

use crate::setting::BadSetting;

// 1, 2 or 5 times 1, 10 or 100, or 1,000 grams; no other increment can be made.
#[derive(Clone, Copy, PartialEq, Eq, Debug)]
pub struct Increment {
    grams: u16,
    ghost known: { T (listed grams) },
}

// The increment of so many grams, or the refusal of a number that is not listed.
impl TryFrom<u16> for Increment {
    ghost use Rattle.std.specs.Prelude.{false, MatchResult};
    ghost use Rattle.wire.specs.declared.setting.BadSetting.TheVariants.{UnknownIncrement};

    type Error = BadSetting;

    ghost try_from_gives = { λ grams made. MatchResult made (λ i. i.grams ≡ grams) (λ e. (e ≡ UnknownIncrement) × (listed grams ≡ false)) };

    #[tactic(auto, unfolding(crate::specs::Increments::listed))]
    fn try_from(grams: u16) -> Result<Increment, BadSetting> {
        if matches!(grams, 1 | 2 | 5 | 10 | 20 | 50 | 100 | 200 | 500 | 1000) {
            Ok(Increment { grams })
        } else {
            Err(BadSetting::UnknownIncrement)
        }
    }
}

impl Increment {
    // The grams of the increment.
    pub fn grams(self) -> u16
        ensures { result ≡ self.grams }
    {
        self.grams
    }
}
