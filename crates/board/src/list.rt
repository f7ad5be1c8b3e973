// The command list.
ghost use Rattle.std.specs.Prelude.{◌≡◌};
ghost use Rattle.board.specs.Commands.{lookup, class_of};

use crate::command::{Class, StepWord};
use crate::report::Report;
use weigher::Order;

// The weight test in two steps.
pub(crate) const WEIGHT_TEST: u16 = 440;

const COMMANDS: [(u16, Class); 21] = [
    (0, Class::Report(Report::GROSS_ROUNDED)),
    (1, Class::Report(Report::GROSS_ROUNDED)),
    (2, Class::Report(Report::TARE_ROUNDED)),
    (3, Class::Report(Report::NET_ROUNDED)),
    (5, Class::Report(Report::GROSS)),
    (6, Class::Report(Report::TARE)),
    (7, Class::Report(Report::NET)),
    (1800, Class::Report(Report::DEVIATION)),
    (2000, Class::NoOperation),
    (201, Class::PresetTare),
    (400, Class::Order(Order::TareWhenStill)),
    (401, Class::Order(Order::ZeroWhenStill)),
    (402, Class::Order(Order::ClearTare)),
    (403, Class::Order(Order::TareNow)),
    (404, Class::Order(Order::ZeroNow)),
    (WEIGHT_TEST, Class::WeightTest),
    (2002, Class::Step(StepWord::Next)),
    (2003, Class::Step(StepWord::Next)),
    (2004, Class::Step(StepWord::Cancel)),
    (2005, Class::Step(StepWord::Retry)),
    (2006, Class::Step(StepWord::Skip)),
];

// The class of a command number, or none where the list has no such number.
#[tactic(auto, unfolding(crate::specs::Commands::class_of))]
pub fn class_of(number: u16) -> Option<Class>
    ensures { result ≡ class_of number }
{
    look_up(&COMMANDS, number)
}

fn look_up(commands: &[(u16, Class)], number: u16) -> Option<Class>
    ensures { result ≡ lookup commands.now number }
{
    commands.iter().find(|row| row.0 == number).map(|row| row.1)
}
