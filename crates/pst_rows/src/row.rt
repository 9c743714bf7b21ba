//! Rows.

ghost use Rattle.std.specs.Prelude.{◌≡◌, ℕ, ◌+◌, ◌-◌, ◌^◌, ◌<◌, ◌≤◌, ◌↔◌, [], IfOk, OnOk, IfErr, OnErr, IfSome, IsNone, length, true, false, not, is_some};
ghost use Rattle.pst_order.specs.Places.{rank, IsIn};
ghost use Rattle.pst_order.specs.Search.{IsFewMore};
ghost use Rattle.pst_rows.specs.Values.{before_slot, room_for};
ghost use Rattle.pst_rows.specs.Parts.{value_of};
ghost use Rattle.pst_rows.specs.Rows.{stamps_of, width_of, base_of, content_at, row_edge, stamped_count, stamped_in, room_of, spare_of, HasMadeRoom, HasSplitRoom, shown, IsRow, IsRowIn, IsInLife};
ghost use Rattle.pst_rows.specs.Changes.{slot_count, first_content, IsNewRow, IsSegmentAround, IsSameRow, IsRowSet, IsRowCut, IsRowReplaced, IsRowSplit, IsSplitStamp, HasMore, needed, missing};
ghost use Rattle.pst_rows.specs.Steps.{AreBounds, HasParts, IsLocated, IsInserted, AreInserted, IsBeginPlace, IsEndPlace, IsHeldBefore, IsWrittenBefore, AreCellsBefore, AreCellsAfter, AreFirstSlots};

use crate::cells::Cells;
use crate::content::{Content, Segment, Stamp};
use crate::parts::{cells_of, forget_starts, recount};
use crate::stamps::{Bounds, Located, StampPlaces, middle_from, put_after, raise_starts};
use pst_base::{NoMemory, SlotNo, TypeShape};
use pst_order::{Compare, Counting, Order, Pos, partition};
use std::alloc::Global;
use std::cmp::Ordering;

/// What the slots of a node hold over its life, which begins at a place and ends before another. A slot holds a content
/// from the begin of the life on, and each stamped one from its place on, up to the next or to the end of the life: these
/// stretches are the segments of the slot. The stamped values stand in the order of slot and then place, and each slot
/// knows where its own begin. A row keeps the numbers of places, and no order: each call is handed the order, and only
/// `new`, `of_parts`, `reserve` and `split_off` take memory. The room that a row has is bounded by what it is to hold when one of
/// these takes it (`room_for`).
#[derive(Drop)]
pub struct Row {
    lo: Pos,
    hi: Pos,
    cells: Cells,
}

impl Row {
    /// A row of a type with the life from `lo` to `hi`, without `hi`: each number 0, each pointer null, each inverse slot
    /// free. `NoMemory` where there is no memory for it.
    ///
    /// # Errors
    /// Where there was no memory.
    pub fn new(alloc: Global, shape: &TypeShape, lo: Pos, hi: Pos) -> Result<Row, NoMemory>
        requires { slot_count shape.now ≤ 256 }
        ensures { IfOk result (IsNewRow shape.now lo hi) }
    {
        Ok(Row {
            lo,
            hi,
            cells: first_cells(alloc, shape)?,
        })
    }

    /// A row of its parts: the life from `lo` to `hi`, without `hi`, what each slot holds at first, and fewer than `2 ^ 32`
    /// stamped values. Where each slot's own begin is counted; that they stand in the order of slot and then place is for the
    /// caller to know. `NoMemory` where there is no memory for it. It takes a time that grows with the count of both.
    ///
    /// # Errors
    /// Where there was no memory.
    pub fn of_parts(
        alloc: Global,
        lo: Pos,
        hi: Pos,
        bases: &[Content],
        stamps: &[Stamp],
    ) -> Result<Row, NoMemory>
        requires { length stamps.now < 2 ^ 32 }
        ensures parts { IfOk result (λ row. shown row ≡ value_of lo hi bases.now stamps.now) }
        ensures room { IfOk result (λ row. room_of row ≤ room_for (length bases.now) (length stamps.now)) }
    {
        Ok(Row {
            lo,
            hi,
            cells: cells_of(alloc, bases, stamps)?,
        })
    }

    /// Where the life begins.
    pub fn lo(&self) -> Pos
        ensures { result ≡ self.now.lo }
    {
        self.lo
    }

    /// The place before which the life ends.
    pub fn hi(&self) -> Pos
        ensures { result ≡ self.now.hi }
    {
        self.hi
    }

    /// How many slots there are.
    pub fn width(&self) -> usize
        ensures { result ≡ width_of self.now }
    {
        self.cells.width()
    }

    /// What a slot holds from the begin of the life on, up to its first stamped value.
    pub fn base(&self, slot: SlotNo) -> Content
        requires { slot.0 < width_of self.now }
        ensures { result ≡ base_of self.now slot.0 }
    {
        self.cells.base(slot)
    }

    /// The stamped values, in the order of slot and then place.
    pub fn stamps(&self) -> &[Stamp]
        ensures { result.now ≡ self.now.cells.stamps }
    {
        self.cells.stamps()
    }

    /// How many stamped values there are.
    pub fn stamped(&self) -> usize
        ensures { result ≡ stamped_count self.now }
    {
        self.cells.len()
    }

    /// How many stamped values more need no memory.
    pub fn spare(&self) -> usize
        ensures { result ≡ spare_of self.now }
    {
        self.cells.capacity() - self.cells.len()
    }

    /// Makes room for so many stamped values more: at most twice as much as it then holds with them, and one for each slot, as long as
    /// it had no more before. `NoMemory` where there is none: then nothing changes.
    ///
    /// # Errors
    /// Where there was no memory.
    pub fn reserve(&mut self, count: usize) -> Result<(), NoMemory>
        ensures same { IsSameRow self.old self.new }
        ensures ok { OnOk result (count ≤ spare_of self.new) }
        ensures as_well { spare_of self.old ≤ spare_of self.new }
        ensures room { HasMadeRoom self.old self.new count }
        ensures err { OnErr result (self.new ≡ self.old) }
    {
        self.cells.reserve(count)
    }

    /// What a slot holds at a place of the life.
    #[inline(always)]
    pub fn read<O: Order>(&self, order: &O, slot: SlotNo, at: Pos) -> Content
        requires row { IsRowIn (O.places order.now) self.now }
        requires slot { slot.0 < width_of self.now }
        requires life { IsInLife (O.places order.now) self.now at.0 }
        ensures { result ≡ content_at (rank (O.places order.now)) self.now slot.0 (rank (O.places order.now) at.0) }
    {
        self.read_with(&mut Counting::new(order), slot, at)
    }

    /// What a slot holds at a place of the life, found by bisection in at most `s` comparisons, where `2 ^ s` is at most
    /// `2 * n + 1` for the `n` stamped values of the slot.
    #[inline(always)]
    pub fn read_with<P: Compare>(&self, compare: &mut P, slot: SlotNo, at: Pos) -> Content
        requires row { IsRowIn (P.list compare.old) self.now }
        requires slot { slot.0 < width_of self.now }
        requires life { IsInLife (P.list compare.old) self.now at.0 }
        requires calls { P.calls compare.old ≤ 2 ^ 63 }
        ensures content { result ≡ content_at (rank (P.list compare.old)) self.now slot.0 (rank (P.list compare.old) at.0) }
        ensures list { P.list compare.new ≡ P.list compare.old }
        ensures calls { IsFewMore (stamped_in self.now slot.0) (P.calls compare.old) (P.calls compare.new) }
    {
        self.held_with(compare, slot, at).content()
    }

    /// Where it is kept what a slot holds at a place of the life: its content is that, and tells no more.
    #[inline(always)]
    pub fn held_at<O: Order>(&self, order: &O, slot: SlotNo, at: Pos) -> &Stamp
        requires row { IsRowIn (O.places order.now) self.now }
        requires slot { slot.0 < width_of self.now }
        requires life { IsInLife (O.places order.now) self.now at.0 }
        ensures { result.now.content ≡ content_at (rank (O.places order.now)) self.now slot.0 (rank (O.places order.now) at.0) }
    {
        self.held_with(&mut Counting::new(order), slot, at)
    }

    // The same, found by one bisection.
    #[inline(always)]
    fn held_with<P: Compare>(&self, compare: &mut P, slot: SlotNo, at: Pos) -> &Stamp
        requires row { IsRowIn (P.list compare.old) self.now }
        requires slot { slot.0 < width_of self.now }
        requires life { IsInLife (P.list compare.old) self.now at.0 }
        requires calls { P.calls compare.old ≤ 2 ^ 63 }
        ensures content { result.now.content ≡ content_at (rank (P.list compare.old)) self.now slot.0 (rank (P.list compare.old) at.0) }
        ensures list { P.list compare.new ≡ P.list compare.old }
        ensures calls { IsFewMore (stamped_in self.now slot.0) (P.calls compare.old) (P.calls compare.new) }
    {
        if self.cells.is_bare(slot) {
            return self.cells.first(slot);
        }
        let (start, stop) = self.part(slot);
        if start < stop {
            let stamps = self.cells.stamps();
            let index = partition(compare, &StampPlaces { stamps }, start, stop, at);
            if start < index {
                return &stamps[index - 1];
            }
        }
        self.cells.first(slot)
    }

    /// Where the segment of a slot that covers a place of the life begins, and before which place it ends.
    pub fn segment<O: Order>(&self, order: &O, slot: SlotNo, at: Pos) -> (Pos, Pos)
        requires row { IsRowIn (O.places order.now) self.now }
        requires slot { slot.0 < width_of self.now }
        requires life { IsInLife (O.places order.now) self.now at.0 }
        ensures { IsSegmentAround (rank (O.places order.now)) self.now slot.0 (rank (O.places order.now) at.0)
            (rank (O.places order.now) result.0.0) (rank (O.places order.now) result.1.0) }
    {
        let found = self.covering(order, slot, at);
        (found.begin, found.end)
    }

    /// The segment of a slot that covers a place of the life, with what the slot holds there, found by one bisection.
    #[inline(always)]
    pub fn covering<O: Order>(&self, order: &O, slot: SlotNo, at: Pos) -> Segment
        requires row { IsRowIn (O.places order.now) self.now }
        requires slot { slot.0 < width_of self.now }
        requires life { IsInLife (O.places order.now) self.now at.0 }
        ensures segment { IsSegmentAround (rank (O.places order.now)) self.now slot.0 (rank (O.places order.now) at.0)
            (rank (O.places order.now) result.begin.0) (rank (O.places order.now) result.end.0) }
        ensures content { result.content ≡ content_at (rank (O.places order.now)) self.now slot.0 (rank (O.places order.now) at.0) }
    {
        let located = self.locate(&mut Counting::new(order), slot, at);
        Segment {
            begin: self.begin_of(located),
            end: self.end_of(located),
            content: self.held(located, slot),
        }
    }

    /// Sets a slot from a place to the one directly behind it: that stretch becomes a segment, and what the slot held
    /// there before is held from its end on. It adds one stamped value at each end where no segment ended.
    pub fn set_over<O: Order>(
        &mut self,
        order: &O,
        slot: SlotNo,
        from: Pos,
        to: Pos,
        content: Content,
    )
        requires row { IsRowIn (O.places order.now) self.old }
        requires slot { slot.0 < width_of self.old }
        requires life { IsInLife (O.places order.now) self.old from.0 }
        requires behind { rank (O.places order.now) to.0 ≡ rank (O.places order.now) from.0 + 1 }
        requires spare { 2 ≤ spare_of self.old }
        ensures set { IsRowSet (rank (O.places order.now)) self.old self.new slot.0 (rank (O.places order.now) from.0) content }
        ensures row { IsRowIn (O.places order.now) self.new }
        ensures more { HasMore (needed (rank (O.places order.now)) self.old slot.0 (rank (O.places order.now) from.0)) self.old self.new }
    {
        let located = self.locate(&mut Counting::new(order), slot, from);
        let begins = self.begin_of(located) == from;
        if self.end_of(located) == to {
            if begins {
                self.write_held(located, slot, content);
            } else {
                self.insert(located.index, Stamp::new(slot, from, content));
            }
            return;
        }
        let before = self.held(located, slot);
        if begins {
            self.insert(located.index, Stamp::new(slot, to, before));
            self.write_held(located, slot, content);
        } else {
            let set = Stamp::new(slot, from, content);
            let restored = Stamp::new(slot, to, before);
            self.insert_two(located.index, set, restored);
        }
    }

    /// Cuts a segment in two at a place strictly inside it. The later part gets a content. It adds one stamped value.
    pub fn cut<O: Order>(&mut self, order: &O, slot: SlotNo, at: Pos, content: Content)
        requires row { IsRowIn (O.places order.now) self.old }
        requires slot { slot.0 < width_of self.old }
        requires life { IsInLife (O.places order.now) self.old at.0 }
        requires inside { row_edge (rank (O.places order.now)) self.old slot.0 (rank (O.places order.now) at.0) ≡ false }
        requires spare { 1 ≤ spare_of self.old }
        ensures cut { IsRowCut (rank (O.places order.now)) self.old self.new slot.0 (rank (O.places order.now) at.0) content }
        ensures row { IsRowIn (O.places order.now) self.new }
        ensures more { HasMore 1 self.old self.new }
    {
        let located = self.locate(&mut Counting::new(order), slot, at);
        let stamp = Stamp::new(slot, at, content);
        self.insert(located.index, stamp);
    }

    /// Begins a segment of a slot at a place of the life where none begins: it holds what is held there, and one stamped value
    /// is added. It answers whether it did; where one begins there nothing changes.
    #[inline(always)]
    pub fn begin_segment<O: Order>(&mut self, order: &O, slot: SlotNo, at: Pos) -> bool
        requires row { IsRowIn (O.places order.now) self.old }
        requires slot { slot.0 < width_of self.old }
        requires life { IsInLife (O.places order.now) self.old at.0 }
        requires spare { 1 ≤ spare_of self.old }
        ensures begun { result ≡ not (row_edge (rank (O.places order.now)) self.old slot.0 (rank (O.places order.now) at.0)) }
        ensures cut { result ≡ true → IsRowCut (rank (O.places order.now)) self.old self.new slot.0 (rank (O.places order.now) at.0)
            (content_at (rank (O.places order.now)) self.old slot.0 (rank (O.places order.now) at.0)) }
        ensures same { result ≡ false → self.new ≡ self.old }
        ensures row { IsRowIn (O.places order.now) self.new }
        ensures more { HasMore (missing (row_edge (rank (O.places order.now)) self.old slot.0 (rank (O.places order.now) at.0))) self.old self.new }
    {
        let located = self.locate(&mut Counting::new(order), slot, at);
        if self.begin_of(located) == at {
            return false;
        }
        let stamp = Stamp::new(slot, at, self.held(located, slot));
        self.insert(located.index, stamp);
        true
    }

    /// Gives the segment of a slot that covers a place another content. It adds no stamped value.
    pub fn replace<O: Order>(&mut self, order: &O, slot: SlotNo, at: Pos, content: Content)
        requires row { IsRowIn (O.places order.now) self.old }
        requires slot { slot.0 < width_of self.old }
        requires life { IsInLife (O.places order.now) self.old at.0 }
        ensures replaced { IsRowReplaced (rank (O.places order.now)) self.old self.new slot.0 (rank (O.places order.now) at.0) content }
        ensures row { IsRowIn (O.places order.now) self.new }
        ensures more { HasMore 0 self.old self.new }
    {
        let located = self.locate(&mut Counting::new(order), slot, at);
        self.write_held(located, slot, content);
    }

    /// A place at which something is stamped, with at most half of the stamped values before it and at most half after
    /// it. There is none where nothing is stamped.
    ///
    /// It looks at stamps with a gap between them that is halved each time, down to 1, and compares a stamp with all others
    /// only where it lies between those found too early and too late. At each gap these are few: at most two or three of a
    /// slot, and as a rule about one of all. So `n` stamped values take about `n log n` comparisons.
    pub fn split_stamp<O: Order>(&self, order: &O) -> Option<Pos>
        requires { IsRowIn (O.places order.now) self.now }
        ensures some { IfSome result (λ place. IsSplitStamp (rank (O.places order.now)) self.now (rank (O.places order.now) place.0)) }
        ensures none { IsNone result ↔ (stamped_count self.now ≡ 0) }
    {
        let mut bounds = Bounds {
            low: self.lo,
            high: self.hi,
        };
        let mut gap = self.cells.len() / 2;
        while gap > 1 {
            if let Some(place) = self.narrow(order, gap, &mut bounds) {
                return Some(place);
            }
            gap /= 2;
        }
        self.narrow(order, 1, &mut bounds)
    }

    /// Cuts the row in two at a place strictly inside its life: leaves what is before it, and gives the rest, which holds
    /// from the place on what the slots held there. `NoMemory` where there is no memory for the rest: then nothing changes.
    ///
    /// # Errors
    /// Where there was no memory.
    pub fn split_off<O: Order>(&mut self, order: &O, at: Pos) -> Result<Row, NoMemory>
        requires row { IsRowIn (O.places order.now) self.old }
        requires after { rank (O.places order.now) self.old.lo.0 < rank (O.places order.now) at.0 }
        requires before { rank (O.places order.now) at.0 < rank (O.places order.now) self.old.hi.0 }
        ensures split { IfOk result (λ right. IsRowSplit (rank (O.places order.now)) self.old self.new right at) }
        ensures left { OnOk result (IsRowIn (O.places order.now) self.new) }
        ensures right { IfOk result (IsRowIn (O.places order.now)) }
        ensures room { IfOk result (HasSplitRoom self.old self.new) }
        ensures err { OnErr result (self.new ≡ self.old) }
    {
        let right = self.right_of(order, at)?;
        self.keep_before(order, at);
        let hi = self.hi;
        self.hi = at;
        Ok(Row {
            lo: at,
            hi,
            cells: right,
        })
    }

    // Looks for a stamp in the middle of all, at one stamp of each gap. Where there is none it narrows the bounds, so that
    // no stamp that it looked at lies between them.
    fn narrow<O: Order>(&self, order: &O, gap: usize, bounds: &mut Bounds) -> Option<Pos>
        requires row { IsRowIn (O.places order.now) self.now }
        requires gap { 1 ≤ gap }
        requires bounds { AreBounds (O.places order.now) self.now bounds.old }
        ensures some { IfSome result (λ place. IsSplitStamp (rank (O.places order.now)) self.now (rank (O.places order.now) place.0)) }
        ensures bounds { AreBounds (O.places order.now) self.now bounds.new }
        ensures none { IsNone result → gap ≡ 1 → stamped_count self.now ≡ 0 }
    {
        let stamps = self.cells.stamps();
        for index in (0..stamps.len()).step_by(gap) {
            let place = stamps[index].place();
            if order.before(bounds.low, place) && order.before(place, bounds.high) {
                match middle_from(order, stamps, place) {
                    Ordering::Less => bounds.high = place,
                    Ordering::Equal => return Some(place),
                    Ordering::Greater => bounds.low = place,
                }
            }
        }
        None
    }

    // Where a slot's stamps are.
    #[inline(always)]
    fn part(&self, slot: SlotNo) -> (usize, usize)
        requires parts { HasParts self.now }
        requires slot { slot.0 < width_of self.now }
        ensures start { result.0 ≡ before_slot self.now.cells.stamps slot.0 }
        ensures stop { result.1 ≡ before_slot self.now.cells.stamps (slot.0 + 1) }
    {
        self.cells.part(slot)
    }

    // Where a slot's stamps are, and which of them are not after a place.
    #[inline]
    fn locate<P: Compare>(&self, compare: &mut P, slot: SlotNo, at: Pos) -> Located
        requires row { IsRowIn (P.list compare.old) self.now }
        requires slot { slot.0 < width_of self.now }
        requires at { IsIn (P.list compare.old) at.0 }
        requires calls { P.calls compare.old ≤ 2 ^ 63 }
        ensures located { IsLocated (rank (P.list compare.old)) self.now.cells.stamps slot.0 (rank (P.list compare.old) at.0) result.start result.index result.stop }
        ensures list { P.list compare.new ≡ P.list compare.old }
        ensures calls { IsFewMore (stamped_in self.now slot.0) (P.calls compare.old) (P.calls compare.new) }
    {
        let (start, stop) = self.part(slot);
        let places = StampPlaces {
            stamps: self.cells.stamps(),
        };
        let index = partition(compare, &places, start, stop, at);
        Located { start, index, stop }
    }

    // Puts a stamp at an index.
    fn insert(&mut self, index: usize, stamp: Stamp)
        requires parts { HasParts self.old }
        requires index { index ≤ stamped_count self.old }
        requires spare { 1 ≤ spare_of self.old }
        ensures { IsInserted self.old self.new index stamp }
    {
        self.cells.insert(index, stamp);
        raise_starts(&mut self.cells, stamp.slot(), 1);
    }

    // Puts two stamps at an index.
    fn insert_two(&mut self, index: usize, first: Stamp, second: Stamp)
        requires parts { HasParts self.old }
        requires index { index ≤ stamped_count self.old }
        requires spare { 2 ≤ spare_of self.old }
        ensures { AreInserted self.old self.new index first second }
    {
        self.cells.insert_two(index, first, second);
        raise_starts(&mut self.cells, first.slot(), 2);
    }

    // Where the segment of a slot begins that covers a located place.
    #[inline(always)]
    fn begin_of(&self, located: Located) -> Pos
        requires low { located.start ≤ located.index }
        requires within { located.index ≤ stamped_count self.now }
        ensures { IsBeginPlace self.now located.start located.index result }
    {
        if located.index == located.start {
            self.lo
        } else {
            self.cells.stamps()[located.index - 1].place()
        }
    }

    // Before which place the segment of a slot ends that covers a located place.
    #[inline(always)]
    fn end_of(&self, located: Located) -> Pos
        requires high { located.index ≤ located.stop }
        requires within { located.stop ≤ stamped_count self.now }
        ensures { IsEndPlace self.now located.index located.stop result }
    {
        if located.index == located.stop {
            self.hi
        } else {
            self.cells.stamps()[located.index].place()
        }
    }

    // What a slot holds at a located place.
    #[inline(always)]
    fn held(&self, located: Located, slot: SlotNo) -> Content
        requires slot { slot.0 < width_of self.now }
        requires low { located.start ≤ located.index }
        requires within { located.index ≤ stamped_count self.now }
        ensures { IsHeldBefore self.now slot.0 located.start located.index result }
    {
        if located.index == located.start {
            self.cells.base(slot)
        } else {
            self.cells.stamps()[located.index - 1].content()
        }
    }

    // Gives the segment of a slot that covers a located place another content.
    #[inline(always)]
    fn write_held(&mut self, located: Located, slot: SlotNo, content: Content)
        requires slot { slot.0 < width_of self.old }
        requires low { located.start ≤ located.index }
        requires within { located.index ≤ stamped_count self.old }
        ensures { IsWrittenBefore self.old self.new slot.0 located.start located.index content }
    {
        if located.index == located.start {
            self.cells.write_base(slot, content);
        } else {
            self.cells.write_content(located.index - 1, content);
        }
    }

    // Keeps the stamps before a place.
    fn keep_before<O: Order>(&mut self, order: &O, at: Pos)
        requires row { IsRowIn (O.places order.now) self.old }
        requires life { IsInLife (O.places order.now) self.old at.0 }
        ensures cells { AreCellsBefore (rank (O.places order.now)) self.old (rank (O.places order.now) at.0) self.new.cells }
        ensures lo { self.new.lo ≡ self.old.lo }
        ensures hi { self.new.hi ≡ self.old.hi }
        ensures room { room_of self.new ≤ room_of self.old }
    {
        self.cells.keep_before(order, at);
        forget_starts(&mut self.cells);
        recount(&mut self.cells);
    }

    // What each slot holds at a place, and the stamps after it.
    fn right_of<O: Order>(&self, order: &O, at: Pos) -> Result<Cells, NoMemory>
        requires row { IsRowIn (O.places order.now) self.now }
        requires life { IsInLife (O.places order.now) self.now at.0 }
        ensures after { IfOk result (λ cells. AreCellsAfter (rank (O.places order.now)) self.now (rank (O.places order.now) at.0) cells) }
        ensures room { IfOk result (λ cells. cells.capacity ≤ room_for (width_of self.now) (stamped_count self.now)) }
    {
        let count = self.cells.width() + self.cells.len() / 2;
        let mut cells = Cells::with_capacity(self.cells.allocator(), count)?;
        for slot in 0..self.cells.width() {
            cells.push_slot(self.read(order, SlotNo(slot as u16), at))?;
        }
        put_after(&mut cells, order, self.cells.stamps(), at)?;
        recount(&mut cells);
        Ok(cells)
    }
}

// What the slots of a new row hold.
fn first_cells(alloc: Global, shape: &TypeShape) -> Result<Cells, NoMemory>
    requires { slot_count shape.now ≤ 256 }
    ensures slots { IfOk result (λ cells. AreFirstSlots shape.now cells.slots) }
    ensures stamps { IfOk result (λ cells. cells.stamps ≡ []) }
    ensures room { IfOk result (λ cells. cells.capacity ≤ slot_count shape.now + 1) }
{
    let fields = usize::from(shape.values) + shape.targets.as_slice().len();
    let count = fields + usize::from(shape.limit);
    let mut cells = Cells::with_capacity(alloc, count)?;
    for slot in 0..count {
        let content = if slot < usize::from(shape.values) {
            Content::Number(0)
        } else if slot < fields {
            Content::Null
        } else {
            Content::Free
        };
        cells.push_slot(content)?;
    }
    Ok(cells)
}
