// What every kind of weigher holds besides its sensor: the weights, the order that stands, and the capacity.
ghost use Rattle.std.specs.Prelude.{◌≡◌, ◌*◌, ◌≤◌, true, pos, ◌≤ℤ◌, unsigned_abs};
ghost use Rattle.weigher.specs.Held.{held};

use crate::load::Load;
use crate::orders::Standing;

mod calls;

// Stillness and fault stand beside the load, as look tells them; as one value they would be taken apart by each rule.
// Its facts are ghost fields, since the law `sound` speaks of a weigher by its value, which as a model would hide them.
#[derive(Clone, Copy)]
pub(crate) struct Base {
    load: Load,
    zero: i32,
    tare: i32,
    still: bool,
    fault: bool,
    standing: Option<Standing>,
    capacity: u32,
    ghost zero_in_range: { unsigned_abs zero * 50 ≤ capacity },
    ghost tare_not_negative: { pos 0 ≤ℤ tare },
    ghost tare_in_range: { tare ≤ℤ pos 4080000 },
    ghost capacity_positive: { 1 ≤ capacity },
    ghost capacity_in_range: { capacity ≤ 4000000 },
    ghost order_held: { held capacity standing ≡ true },
}
