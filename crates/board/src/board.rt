// The board: its registers, and the weigher below.
use crate::inner::Inner;

mod acting;
mod calls;
mod images;
mod scanning;

pub use calls::attribute_report;

#[derive(Drop)]
pub struct Board<W> {
    pub(crate) weigher: W,
    pub(crate) inner: Inner,
}
