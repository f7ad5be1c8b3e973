// What the board shows: the value of a report, the status word, and the read image.
ghost use Rattle.std.specs.Prelude.{◌≡◌, ◌≤◌, if◌then◌else◌, unsigned_abs};
ghost use Rattle.weigher.specs.Scale.{gross, net};
ghost use Rattle.wire.specs.Rounding.{rounded as roundedBy};
ghost use Rattle.board.specs.Status.{status_of};
ghost use Rattle.board.specs.Values.{report_of};
ghost use Rattle.board.specs.Images.{image_of};

use super::Board;
use crate::report::{Quantity, Report};
use crate::status::Status;
use weigher::Weigher;
use wire::{MeasuringBlockRead, float_of, round};

impl<W: Weigher> Board<W> {
    pub(crate) fn gross(&self) -> i32
        ensures value { result ≡ gross (W.kind.meaning self.now.weigher) }
        ensures bound { unsigned_abs result ≤ 4080000 }
    {
        let view = self.weigher.look();
        view.load - view.zero
    }

    fn net(&self) -> i32
        ensures { result ≡ net (W.kind.meaning self.now.weigher) }
    {
        self.gross() - self.weigher.look().tare
    }

    // A weight, rounded to the increment or as it is.
    fn weight(&self, weight: i32, rounded: bool) -> i64
        ensures { result ≡ (if rounded then roundedBy self.now.inner.settings.increment.grams weight else weight) }
    {
        if rounded {
            round(weight, self.inner.settings.increment)
        } else {
            i64::from(weight)
        }
    }

    // The value of a report.
    pub(crate) fn value(&self, report: Report) -> i64
        ensures { result ≡ report_of self.now.inner.settings.increment.grams report self.now.inner.deviation (W.kind.meaning self.now.weigher) }
    {
        match report.quantity {
            Quantity::Gross => self.weight(self.gross(), report.rounded),
            Quantity::Tare => self.weight(self.weigher.look().tare, report.rounded),
            Quantity::Net => self.weight(self.net(), report.rounded),
            Quantity::Deviation => self.inner.deviation,
        }
    }

    fn status(&self) -> Status
        ensures { result ≡ status_of self.now.inner (W.kind.meaning self.now.weigher) }
    {
        let view = self.weigher.look();
        let increment = u32::from(self.inner.settings.increment.grams());
        Status {
            sequence: self.inner.block.sequence,
            heartbeat: self.inner.heartbeat,
            fault: view.fault,
            centred: 4 * self.gross().unsigned_abs() <= increment,
            still: view.still,
            tared: view.tare != 0,
        }
    }

    // The read image.
    pub(crate) fn image(&self) -> [u8; 8]
        ensures { result ≡ image_of self.now.inner (W.kind.meaning self.now.weigher) }
    {
        let block = MeasuringBlockRead {
            value: float_of(self.value(self.inner.block.report)),
            status: self.status().into(),
            response: self.inner.block.response,
        };
        block.to_image(self.inner.settings.order)
    }
}
