//! What the clauses of orders and rows do not say: that the calls which take memory succeed, and that the clauses mean what is
//! meant.

ghost use Rattle.std.specs.Prelude.{◌≡◌, ◌<◌, ◌≤◌, length, OnOk};
ghost use Rattle.pst_order.specs.Places.{IsIn};
ghost use Rattle.pst_rows_bed.specs.Beds.{IsReady};

use pst_base::{NoMemory, NodeId, SlotNo};
use pst_order::{LabelOrder, Order, Pos, RowOrder};
use pst_rows::Content;
use pst_rows_bed::{Bed, are_in_order, filled, insert_at_random, insert_behind};
use std::alloc::Global;

/// Whether the labels of the first place and of a new last one are those after they were set anew.
fn are_anew(order: &LabelOrder, new: Pos) -> bool
    requires { IsIn order.now.places new.0 }
{
    let first = order.first();
    order.label(first) == (1 << 60) - 1
        && order.label(new) == (1 << 59) - 1
        && order.before(first, new)
}

/// The same of an order of one place, in which the places are inserted.
fn sets_anew(order: &mut LabelOrder) -> Result<bool, NoMemory>
    requires { length order.old.places ≡ 1 }
{
    let first = order.first();
    let last = insert_behind(order, first, 62)?;
    let full = order.label(order.first()) == 0 && order.label(last) == (1 << 62) - 1;
    let new = insert_behind(order, last, 1)?;
    Ok(full && are_anew(order, new))
}

/// Whether the labels are set anew at the 63rd insertion behind the last place, and not before.
///
/// # Errors
/// Want of memory.
pub fn sets_labels_anew(alloc: Global) -> Result<bool, NoMemory> {
    let mut order = LabelOrder::new(alloc)?;
    sets_anew(&mut order)
}

/// Whether two orders of one place give the same list, of 10,000 places that are inserted at random.
fn agree<A: Order, B: Order>(alloc: Global, plain: &mut A, quick: &mut B) -> Result<bool, NoMemory>
    requires plain { length (A.places plain.old) ≡ 1 }
    requires quick { length (B.places quick.old) ≡ 1 }
{
    match insert_at_random(alloc, plain, quick, 10_000)? {
        None => Ok(false),
        Some(places) => Ok(
            places.len() == 10_001 && are_in_order(plain, &places) && are_in_order(quick, &places),
        ),
    }
}

/// Whether labels and a vector give the same list, of 10,000 places that are inserted at random.
///
/// # Errors
/// Want of memory.
pub fn orders_agree(alloc: Global) -> Result<bool, NoMemory> {
    let mut plain = RowOrder::new(alloc)?;
    let mut quick = LabelOrder::new(alloc)?;
    agree(alloc, &mut plain, &mut quick)
}

/// The first pointer of a row.
const POINTER: SlotNo = SlotNo(1);

/// What a new row holds at its first place: the slot, the place and the content.
const NEW: [(u16, usize, Content); 2] = [(1, 0, Content::Null), (3, 0, Content::Free)];

/// The same of a row after three stamps. Each stamp comes before the ones that were stamped earlier, since its places come in at
/// the begin of the life.
const STAMPED: [(u16, usize, Content); 6] = [
    (1, 0, Content::Target(NodeId(8))),
    (0, 0, Content::Number(-3)),
    (1, 1, Content::Null),
    (1, 2, Content::Target(NodeId(7))),
    (1, 3, Content::Target(NodeId(8))),
    (0, 3, Content::Number(0)),
];

/// Whether a slot holds a content at a place.
fn holds<O: Order>(bed: &Bed, order: &O, slot: u16, index: usize, content: Content) -> bool
    requires { IsReady (O.places order.now) bed.now }
{
    slot < 5 && index < bed.places.len() && bed.read(order, SlotNo(slot), index) == content
}

/// Whether the slots hold these contents.
fn holds_all<O: Order>(bed: &Bed, order: &O, wanted: &[(u16, usize, Content)]) -> bool
    requires { IsReady (O.places order.now) bed.now }
{
    for (slot, index, content) in wanted {
        if !holds(bed, order, *slot, *index, *content) {
            return false;
        }
    }
    true
}

/// Stamps a pointer twice, and a number.
fn stamp_three<O: Order>(bed: &mut Bed, order: &mut O) -> Result<(), NoMemory>
    requires ready { IsReady (O.places order.old) bed.old }
    requires room { length (O.places order.old) ≡ 2 }
    ensures { OnOk result (IsReady (O.places order.new) bed.new) }
{
    bed.stamp(order, POINTER, Content::Target(NodeId(7)))?;
    bed.stamp(order, POINTER, Content::Target(NodeId(8)))?;
    bed.stamp(order, SlotNo(0), Content::Number(-3))
}

/// Whether the pointer's segment around the third of four places begins there, ends at the second, and is replaced.
fn replaces<O: Order>(bed: &mut Bed, order: &O) -> bool
    requires { IsReady (O.places order.now) bed.old }
{
    if bed.places.len() != 4 {
        return false;
    }
    let (second, third) = (bed.places[1], bed.places[2]);
    let (begin, end) = bed.row.segment(order, POINTER, third);
    bed.row
        .replace(order, POINTER, third, Content::Target(NodeId(9)));
    let now = bed.row.read(order, POINTER, third);
    begin == third && end == second && now == Content::Target(NodeId(9))
}

/// Whether each place of a new bed has what is written there, also after three stamps.
fn keeps_values<O: Order>(bed: &mut Bed, order: &mut O) -> Result<bool, NoMemory>
    requires ready { IsReady (O.places order.old) bed.old }
    requires room { length (O.places order.old) ≡ 2 }
{
    let is_new = holds_all(bed, order, NEW.as_slice());
    stamp_three(bed, order)?;
    let is_stamped = holds_all(bed, order, STAMPED.as_slice()) && bed.row.stamped() == 3;
    Ok(is_new && is_stamped && replaces(bed, order))
}

/// Whether each place has what was written there.
///
/// # Errors
/// Want of memory.
pub fn places_keep_values(alloc: Global) -> Result<bool, NoMemory> {
    let mut order = RowOrder::new(alloc)?;
    let mut bed = Bed::new(alloc, &mut order)?;
    keeps_values(&mut bed, &mut order)
}

/// Stamps so many values over all slots, by turns.
fn stamp_by_turns(bed: &mut Bed, order: &mut LabelOrder, count: u16) -> Result<(), NoMemory>
    requires ready { IsReady order.old.places bed.old }
    requires room { length order.old.places ≡ 2 }
    ensures { OnOk result (IsReady order.new.places bed.new) }
{
    for turn in 0..count {
        let content = Content::Target(NodeId(u64::from(turn)));
        bed.stamp(order, SlotNo(turn % 5), content)?;
    }
    Ok(())
}

/// Splits a row in its middle. Gives how many stamped values lie before the place and how many after it; nothing, where none is
/// stamped or the halves do not meet at the place.
fn split(bed: &mut Bed, order: &LabelOrder) -> Result<Option<(usize, usize)>, NoMemory>
    requires { IsReady order.now.places bed.old }
{
    let Some(place) = bed.row.split_stamp(order) else {
        return Ok(None);
    };
    let right = bed.row.split_off(order, place)?;
    if bed.row.hi() != place || right.lo() != place {
        return Ok(None);
    }
    Ok(Some((bed.row.stamped(), right.stamped())))
}

/// Whether a new bed's row is not split, and after 11 stamps in its middle, where one of them is at the place.
fn splits_at_eleven(bed: &mut Bed, order: &mut LabelOrder) -> Result<bool, NoMemory>
    requires ready { IsReady order.old.places bed.old }
    requires room { length order.old.places ≡ 2 }
{
    let is_new = bed.row.split_stamp(order).is_none();
    stamp_by_turns(bed, order, 11)?;
    let is_full = bed.row.stamped() == 11;
    Ok(is_new && is_full && split(bed, order)? == Some((5, 5)))
}

/// Whether a new row is not split, and one of 11 stamped values in its middle, one of which is at the place.
///
/// # Errors
/// Want of memory.
pub fn splits_eleven(alloc: Global) -> Result<bool, NoMemory> {
    let mut order = LabelOrder::new(alloc)?;
    let mut bed = Bed::new(alloc, &mut order)?;
    splits_at_eleven(&mut bed, &mut order)
}

/// The halves of a row of 160 stamped values over so many slots.
fn halves(alloc: Global, slots: u16) -> Result<Option<(usize, usize)>, NoMemory>
    requires some { 1 ≤ slots }
    requires few { slots ≤ 5 }
{
    let mut order = LabelOrder::new(alloc)?;
    let mut bed = filled(alloc, &mut order, 160, slots)?;
    split(&mut bed, &order)
}

/// Whether rows of 160 stamped values are split in their middle, over one slot to five. Each value has a place of its own, so
/// that one is at the place, and 159 are left.
///
/// # Errors
/// Want of memory.
pub fn splits_many(alloc: Global) -> Result<bool, NoMemory> {
    for slots in 1..6 {
        match halves(alloc, slots)? {
            Some((79, 80) | (80, 79)) => {}
            _ => return Ok(false),
        }
    }
    Ok(true)
}
