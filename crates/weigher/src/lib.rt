// The weigher layer: the orders a scale can be given, the interface that every weigher meets, and the kinds behind it.
#![tactic(auto)]

mod answers;
mod base;
mod cell;
mod interface;
mod load;
mod orders;
mod ramp;
mod reading;
mod sealed;
mod sensor;
mod single;

pub use answers::{Declined, Sensed, Told, View};
pub use cell::Cell;
pub use interface::Weigher;
pub use orders::{Order, Standing};
pub use ramp::Ramp;
pub use sealed::Sealed;

#[cfg(test)]
mod tests;
