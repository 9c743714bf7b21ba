//! A row over an order, with the same stamped values beside it in a plain list.

ghost use Rattle.std.specs.Prelude.{◌≡◌, ◌<◌, ◌≤◌, ◌+◌, ◌^◌, length, Some, slice_get, IfOk, OnOk, All};
ghost use Rattle.pst_order.specs.declared.order.Pos.{Pos};
ghost use Rattle.pst_order.specs.Places.{rank, IsIn};
ghost use Rattle.pst_rows.specs.Rows.{content_at, stamped_count, row_edge};
ghost use Rattle.pst_rows.specs.Changes.{needed};
ghost use Rattle.pst_rows_bed.specs.Beds.{IsReady, IsHeldAt, IsKnown};

use pst_base::{NoMemory, SlotNo, Targets, TypeNo, TypeShape};
use pst_order::{Order, Pos};
use pst_rows::{Content, Row};
use std::alloc::Global;

/// A content that a slot holds from a place on.
#[derive(Clone, Copy)]
pub struct Written {
    pub slot: SlotNo,
    pub place: Pos,
    pub content: Content,
}

/// A row of a type with one number, two pointers and the limit 2, and places in its life. Beside it stand what its slots
/// hold at first, and its stamped values in a list that is in no order.
#[derive(Drop)]
pub struct Bed {
    pub row: Row,
    pub places: Vec<Pos>,
    pub base: Vec<Content>,
    pub stamps: Vec<Written>,
}

/// What the slots hold at first.
const BASE: [Content; 5] = [
    Content::Number(0),
    Content::Null,
    Content::Null,
    Content::Free,
    Content::Free,
];

impl Bed {
    /// A new row, over an order of one place.
    ///
    /// # Errors
    /// Want of memory.
    pub fn new<O: Order>(alloc: Global, order: &mut O) -> Result<Bed, NoMemory>
        requires { length (O.places order.old) ≡ 1 }
        ensures ready { IfOk result (IsReady (O.places order.new)) }
        ensures count { OnOk result (length (O.places order.new) ≡ 2) }
    {
        let lo = order.first();
        let hi = order.insert_after(lo)?;
        let row = Row::new(alloc, &shape(alloc)?, lo, hi)?;
        let places = Vec::from_slice(alloc, &[lo])?;
        let base = Vec::from_slice(alloc, &BASE)?;
        Ok(Bed {
            row,
            places,
            base,
            stamps: Vec::new(alloc),
        })
    }

    /// A place directly behind the begin of the life.
    ///
    /// # Errors
    /// Want of memory.
    pub fn add_place<O: Order>(&mut self, order: &mut O) -> Result<Pos, NoMemory>
        requires ready { IsReady (O.places order.old) self.old }
        requires few { length (O.places order.old) < 2 ^ 30 }
        ensures ready { OnOk result (IsReady (O.places order.new) self.new) }
        ensures row { self.new.row ≡ self.old.row }
        ensures behind { IfOk result (λ place. rank (O.places order.new) place.0 ≡ rank (O.places order.new) self.new.row.lo.0 + 1) }
        ensures count { OnOk result (length (O.places order.new) ≡ length (O.places order.old) + 1) }
    {
        let place = order.insert_after(self.row.lo())?;
        self.places.push(place)?;
        Ok(place)
    }

    /// Sets a slot from the begin of the life to a new place directly behind it.
    ///
    /// # Errors
    /// Want of memory.
    pub fn stamp<O: Order>(
        &mut self,
        order: &mut O,
        slot: SlotNo,
        content: Content,
    ) -> Result<(), NoMemory>
        requires ready { IsReady (O.places order.old) self.old }
        requires slot { slot.0 < 5 }
        requires few { length (O.places order.old) < 2 ^ 30 }
        ensures ready { OnOk result (IsReady (O.places order.new) self.new) }
        ensures count { OnOk result (length (O.places order.new) ≡ length (O.places order.old) + 1) }
    {
        let to = self.add_place(order)?;
        self.row.reserve(2)?;
        let from = self.row.lo();
        let before = self.row.read(order, slot, from);
        self.stamps.push(Written {
            slot,
            place: to,
            content: before,
        })?;
        self.base[usize::from(slot.0)] = content;
        self.row.set_over(order, slot, from, to, content);
        Ok(())
    }

    /// What a slot holds at a place.
    #[inline]
    pub fn read<O: Order>(&self, order: &O, slot: SlotNo, index: usize) -> Content
        requires ready { IsReady (O.places order.now) self.now }
        requires slot { slot.0 < 5 }
        requires index { index < length self.now.places.items }
        ensures { IsHeldAt (O.places order.now) self.now slot.0 index result }
    {
        self.row.read(order, slot, self.places[index])
    }

    /// The same, found by going over all stamped values.
    #[inline]
    pub fn scan<O: Order>(&self, order: &O, slot: SlotNo, index: usize) -> Content
        requires ready { IsReady (O.places order.now) self.now }
        requires slot { slot.0 < 5 }
        requires index { index < length self.now.places.items }
    {
        let base = self.base[usize::from(slot.0)];
        latest(
            order,
            &self.stamps,
            base,
            self.row.lo(),
            slot,
            self.places[index],
        )
    }
}

/// The type of the row.
fn shape(alloc: Global) -> Result<TypeShape, NoMemory>
    ensures { IfOk result (λ shape. (shape.values ≡ 1) × (length shape.targets ≡ 2) × (shape.limit ≡ 2)) }
{
    let mut targets = Vec::new(alloc);
    targets.push(TypeNo(1))?;
    targets.push(TypeNo(1))?;
    Ok(TypeShape {
        values: 1,
        targets: Targets::from_vec(targets),
        limit: 2,
    })
}

/// What a slot holds at a place, by its stamps in any order.
fn latest<O: Order>(
    order: &O,
    stamps: &[Written],
    base: Content,
    lo: Pos,
    slot: SlotNo,
    at: Pos,
) -> Content
    requires known { All (λ e. rank (O.places order.now) e.place.0 < length (O.places order.now)) stamps.now }
    requires lo { rank (O.places order.now) lo.0 < length (O.places order.now) }
    requires at { rank (O.places order.now) at.0 < length (O.places order.now) }
{
    let mut since = lo;
    let mut content = base;
    for stamp in stamps {
        if stamp.slot == slot
            && order.before(since, stamp.place)
            && !order.before(at, stamp.place)
        {
            since = stamp.place;
            content = stamp.content;
        }
    }
    content
}
