// The words of the input: orders and numbers.
ghost use Rattle.std.specs.Prelude.{MatchOption, MatchResult};
ghost use Rattle.replay.specs.Inputs.{Settings};
ghost use Rattle.replay.specs.Refusals.{LacksSettings, LacksOrder};
ghost use Rattle.replay.specs.Words.{IsNumber, Reads, Says};

use crate::failure::Flaw;
use weigher::Order;

// A decimal number that fits 32 bits, with or without a sign.
pub fn number(text: &str) -> Option<i32>
    ensures { MatchOption result (IsNumber text.now → ⊥) (Reads text.now) }
{
    text.parse().ok()
}

// The order that a line names; a preset names its value after one blank.
pub fn order(line: &str) -> Result<Order, Flaw>
    ensures { MatchResult result (Says line.now) (LacksOrder line.now) }
{
    match line {
        "tare-when-still" => Ok(Order::TareWhenStill),
        "zero-when-still" => Ok(Order::ZeroWhenStill),
        "tare-now" => Ok(Order::TareNow),
        "zero-now" => Ok(Order::ZeroNow),
        "clear-tare" => Ok(Order::ClearTare),
        "settle" => Ok(Order::Settle),
        _ => {
            let value = line.strip_prefix("preset-tare ").ok_or(Flaw::NoOrder)?;
            number(value).map(Order::PresetTare).ok_or(Flaw::NoNumber)
        }
    }
}

// A capacity and a tolerance, parted by one blank.
pub fn settings(line: &str) -> Option<(i32, i32)>
    ensures { MatchOption result (LacksSettings line.now) (λ s. Settings line.now s.0 s.1) }
{
    let (capacity, tolerance) = line.split_once(' ')?;
    Some((number(capacity)?, number(tolerance)?))
}
