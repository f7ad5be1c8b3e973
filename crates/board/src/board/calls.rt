// Making a board, looking at it, and reading from it acyclically.
ghost use Rattle.std.specs.Prelude.{◌≡◌, length, Some, MatchResult};
ghost use Rattle.weigher.specs.Rules.{dropped};
ghost use Rattle.board.specs.declared.report.Report.{Report as ReportOf};
ghost use Rattle.board.specs.Boards.{new_inner, look_of, attribute_report, reply_of};
ghost use Rattle.board.specs.Declines.{decline_of, read_decline};

use super::Board;
use crate::address::Address;
use crate::block::{Block, State};
use crate::declined::Declined;
use crate::inner::Inner;
use crate::look::Look;
use crate::report::{Quantity, Report};
use crate::setting::Settings;
use weigher::Weigher;
use wire::{float_of, strip as float_strip};

// The class of the object that acyclic reads are answered from.
const CLASS: u16 = 0x300;

fn new_inner(settings: Settings) -> Inner
    ensures { result ≡ new_inner settings }
{
    let block = Block {
        compared: 0,
        report: Report::GROSS_ROUNDED,
        response: 0,
        sequence: 0,
        state: State::Ready,
    };
    Inner {
        settings,
        block,
        deviation: 0,
        heartbeat: false,
    }
}

// The report that an attribute holds.
pub fn attribute_report(attribute: u8) -> Option<Report>
    ensures { result ≡ attribute_report attribute }
{
    let (quantity, rounded) = match attribute {
        1 | 2 => (Quantity::Gross, true),
        3 => (Quantity::Tare, true),
        4 => (Quantity::Net, true),
        5 => (Quantity::Gross, false),
        6 => (Quantity::Tare, false),
        7 => (Quantity::Net, false),
        _ => return None,
    };
    Some(Report { quantity, rounded })
}

impl<W: Weigher> Board<W> {
    // A board on this weigher, whose order is dropped if one stands.
    pub fn new(mut weigher: W, settings: Settings) -> Board<W>
        ensures inner { result.inner ≡ new_inner settings }
        ensures weigher { W.kind.meaning result.weigher ≡ (dropped (W.kind.meaning weigher)).1 }
        ensures sensor { W.kind.keeps weigher result.weigher }
    {
        let _ = weigher.drop();
        Board {
            weigher,
            inner: new_inner(settings),
        }
    }

    // The weigher's load.
    pub fn load(&self) -> i32
        ensures { result ≡ (W.kind.meaning self.now.weigher).load }
    {
        self.weigher.look().load
    }

    pub fn look(&self) -> Look
        ensures { result ≡ look_of self.now.inner (W.kind.meaning self.now.weigher) }
    {
        let view = self.weigher.look();
        Look {
            open: self.inner.block.open_word(),
            zero: view.zero,
            tare: view.tare,
            deviation: self.inner.deviation,
        }
    }

    // Fills a strip of four bytes with the value that an address holds.
    pub fn read(&self, address: Address, strip: &mut [u8]) -> Result<(), Declined>
        ensures declines { decline_of result ≡ read_decline address (length strip.old) }
        ensures cases { MatchResult result (λ _. (report : ReportOf) × (attribute_report address.attribute ≡ Some report) × (strip.new ≡ reply_of self.now.inner (W.kind.meaning self.now.weigher) report)) (λ _. strip.new ≡ strip.old) }
    {
        if address.class != CLASS {
            return Err(Declined::NoClass);
        }
        if address.instance != 1 {
            return Err(Declined::NoInstance);
        }
        let Some(report) = attribute_report(address.attribute) else {
            return Err(Declined::NoAttribute);
        };
        if strip.len() != 4 {
            return Err(Declined::ReplyMisfit);
        }
        let value = float_of(self.value(report));
        strip.copy_from_slice(&float_strip(value, self.inner.settings.order));
        Ok(())
    }
}
