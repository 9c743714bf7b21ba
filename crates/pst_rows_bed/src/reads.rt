//! Reads of a row all over its life.

ghost use Rattle.std.specs.Prelude.{◌≡◌, ◌<◌, ◌≤◌, length, IfOk};
ghost use Rattle.pst_rows_bed.specs.Beds.{IsReady};

use crate::bed::Bed;
use pst_base::{NoMemory, NodeId, SlotNo};
use pst_order::LabelOrder;
use pst_rows::Content;
use std::alloc::Global;

/// Stamps so many values in the first slots, by turns, with some places between.
fn fill(bed: &mut Bed, order: &mut LabelOrder, count: u16, slots: u16) -> Result<(), NoMemory>
    requires ready { IsReady order.old.places bed.old }
    requires some { 1 ≤ slots }
    requires few { slots ≤ 5 }
    requires room { length order.old.places ≡ 2 }
    requires bound { count ≤ 1000 }
    ensures { IfOk result (λ _. IsReady order.new.places bed.new) }
{
    for turn in 0..count {
        for _ in 0..16_u32 {
            bed.add_place(order)?;
        }
        let content = Content::Target(NodeId(u64::from(turn)));
        bed.stamp(order, SlotNo(turn % slots), content)?;
    }
    Ok(())
}

/// A new bed over an order of one place, with so many values stamped in its first slots, by turns, and some places between.
///
/// # Errors
/// Want of memory.
pub fn filled(
    alloc: Global,
    order: &mut LabelOrder,
    count: u16,
    slots: u16,
) -> Result<Bed, NoMemory>
    requires one { length order.old.places ≡ 1 }
    requires some { 1 ≤ slots }
    requires few { slots ≤ 5 }
    requires bound { count ≤ 1000 }
    ensures { IfOk result (IsReady order.new.places) }
{
    let mut bed = Bed::new(alloc, order)?;
    fill(&mut bed, order, count, slots)?;
    Ok(bed)
}

/// Reads the first slots by turns at many places. Gives the sum of what is read.
pub fn read_rows(bed: &Bed, order: &LabelOrder, slots: u16, stride: usize, count: u32) -> u64
    requires ready { IsReady order.now.places bed.now }
    requires some { 1 ≤ slots }
    requires few { slots ≤ 5 }
    requires stride { stride ≤ length bed.now.places.items }
{
    let mut sum: u64 = 0;
    let mut walk = Walk { slot: 0, index: 0 };
    for _ in 0..count {
        sum = sum.wrapping_add(number(bed.read(order, SlotNo(walk.slot), walk.index)));
        walk = walk.next(slots, stride, bed.places.len());
    }
    sum
}

/// The same by going over all stamped values.
pub fn scan_rows(bed: &Bed, order: &LabelOrder, slots: u16, stride: usize, count: u32) -> u64
    requires ready { IsReady order.now.places bed.now }
    requires some { 1 ≤ slots }
    requires few { slots ≤ 5 }
    requires stride { stride ≤ length bed.now.places.items }
{
    let mut sum: u64 = 0;
    let mut walk = Walk { slot: 0, index: 0 };
    for _ in 0..count {
        sum = sum.wrapping_add(number(bed.scan(order, SlotNo(walk.slot), walk.index)));
        walk = walk.next(slots, stride, bed.places.len());
    }
    sum
}

/// Looks so many times for a place at which the row may be split. Gives how often there is one.
pub fn find_splits(bed: &Bed, order: &LabelOrder, count: u32) -> u32
    requires { IsReady order.now.places bed.now }
{
    let mut found: u32 = 0;
    for _ in 0..count {
        if bed.row.split_stamp(order).is_some() {
            found = found.wrapping_add(1);
        }
    }
    found
}

/// A number of a content, so that each read counts.
fn number(content: Content) -> u64 {
    match content {
        Content::Number(_) => 1,
        Content::Null => 2,
        Content::Target(id) | Content::From(id, _) => id.0,
        Content::Free => 3,
    }
}

/// Where a walk through the slots and the places of a row stands.
#[derive(Clone, Copy)]
struct Walk {
    slot: u16,
    index: usize,
}

impl Walk {
    /// The next slot, and the place some way on; behind the last one each begins again.
    #[inline]
    fn next(self, slots: u16, stride: usize, len: usize) -> Walk
        requires slot { self.slot < slots }
        requires index { self.index < len }
        requires stride { stride ≤ len }
        ensures slot { result.slot < slots }
        ensures index { result.index < len }
    {
        let slot = self.slot + 1;
        Walk {
            slot: if slot < slots { slot } else { 0 },
            index: next_index(self.index, stride, len),
        }
    }
}

/// The index some way on, round the list.
#[inline]
fn next_index(index: usize, stride: usize, len: usize) -> usize
    requires index { index < len }
    requires stride { stride ≤ len }
    ensures { result < len }
{
    if stride < len - index {
        index + stride
    } else {
        stride - (len - index)
    }
}
