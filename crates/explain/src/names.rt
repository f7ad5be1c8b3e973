// The plain words for reports, commands and the sensor.
ghost use Rattle.std.specs.Prelude.{◌≡◌, Some};
ghost use Rattle.explain.specs.Names.{report_words, command_words, sensed_in};

use board::{Class, Quantity, Report};
use std::fmt;
use weigher::{Order, Sensed};

// The name of a report.
#[derive(Clone, Copy)]
pub struct ReportName(pub Report);

impl fmt::Display for ReportName {
    ghost output = { λ x. Some (report_words x.0) };

    fn fmt<W: fmt::Write>(&self, f: &mut fmt::Formatter<W>) -> fmt::Result {
        let quantity = match self.0.quantity {
            Quantity::Gross => "gross",
            Quantity::Tare => "tare",
            Quantity::Net => "net",
            Quantity::Deviation => "deviation",
        };
        let rounded = if self.0.rounded { ", rounded" } else { "" };
        write!(f, "{quantity}{rounded}")
    }
}

// The name of what a command word asks for, by its class. The list has no other orders than the five here.
#[derive(Clone, Copy)]
pub struct CommandName(pub Option<Class>);

impl fmt::Display for CommandName {
    ghost output = { λ x. Some (command_words x.0) };

    fn fmt<W: fmt::Write>(&self, f: &mut fmt::Formatter<W>) -> fmt::Result {
        match self.0 {
            Some(Class::Report(report)) => {
                let report = ReportName(report);
                write!(f, "report {report}")
            }
            Some(Class::NoOperation) => f.write_str("no operation"),
            Some(Class::PresetTare) => f.write_str("preset tare"),
            Some(Class::Order(Order::TareWhenStill)) => f.write_str("tare when still"),
            Some(Class::Order(Order::ZeroWhenStill)) => f.write_str("zero when still"),
            Some(Class::Order(Order::ClearTare)) => f.write_str("clear tare"),
            Some(Class::Order(Order::TareNow)) => f.write_str("tare now"),
            Some(Class::Order(Order::ZeroNow)) => f.write_str("zero now"),
            Some(Class::WeightTest) => f.write_str("weight test"),
            _ => f.write_str("a step word or no command"),
        }
    }
}

// What the status word says of the sensor.
pub(crate) fn sensed_in(status: u16) -> Sensed
    ensures { result ≡ sensed_in status }
{
    Sensed::of(status / 16 % 2 == 1, status / 64 % 2 != 1)
}
