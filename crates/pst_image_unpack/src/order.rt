//! The order list of an image.

ghost use Rattle.std.specs.Prelude.{◌≡◌, ◌≤◌, ◌^◌, IfOk};
ghost use Rattle.pst_image_meaning.specs.Denoted.{places_of};

use pst_base::NoMemory;
use pst_order::Walked;
use std::alloc::Global;

/// So many places, each named by its position: each new one is put behind the last.
///
/// # Errors
/// Where there was no memory.
pub fn order_of<O: Walked + Drop>(alloc: Global, places: u32) -> Result<O, NoMemory>
    requires some { 1 ≤ places }
    requires few { places ≤ 2 ^ 30 }
    ensures { IfOk result (λ order. O.places order ≡ places_of places) }
{
    let mut order = O::new(alloc)?;
    order.numbered();
    let mut last = order.first();
    for _ in 1..places {
        last = order.insert_after(last)?;
        order.numbered();
    }
    Ok(order)
}
