// Between whole grams and the bytes of an image: rounding, floats, byte and word orders, and the measuring block.
#![tactic(auto)]

mod block;
mod float;
mod increment;
mod laws;
mod order;
mod rounding;
mod setting;
#[cfg(test)]
mod tests;

pub use block::{MeasuringBlockRead, MeasuringBlockWritten, halves, strip};
pub use float::{bits_of, float_of, whole};
pub use increment::Increment;
pub use laws::{image_laws, order_laws, rounding_laws, worked_examples};
pub use order::Order;
pub use rounding::round;
pub use setting::BadSetting;
