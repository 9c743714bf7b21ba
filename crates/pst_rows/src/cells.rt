//! The slots and the stamped values of a row: some slots beside the life, and one list of the rest.

ghost use Rattle.std.specs.Prelude.{◌≡◌, ◌≢◌, ◌+◌, ◌-◌, ◌*◌, ◌^◌, ◌<◌, ◌≤◌, [], ◌∷◌, ◌++◌, true, nat_lt, max, All, IfOk, OnOk, OnErr, length, get_or, set, take, drop, filter};
ghost use Rattle.std.specs.List.{insert as inserted};
ghost use Rattle.smallvec.specs.SmallVec.{HasRoomFor};
ghost use Rattle.pst_order.specs.Places.{rank};
ghost use Rattle.pst_rows.specs.Stamps.{at_place};
ghost use Rattle.pst_rows.specs.Cells.{head_size, slot_kept, no_cell, IsPart, IsBare, IsMarked};
ghost use Rattle.pst_rows.specs.Values.{no_slot, room_for};
ghost use Rattle.pst_rows.specs.Parts.{bare_slot, HasStart};
ghost use Rattle.pst_rows.specs.Steps.{with_content, with_base};

use crate::content::{Content, Stamp};
use pst_base::{NoMemory, SlotNo};
use pst_order::{Order, Pos};
use smallvec::SmallVec;
use std::alloc::{AllocError, Global};
use std::marker::Model;

/// For so many slots and stamps behind the head a row has room at most, so that 32 bits count them. (They would take 64 GiB.)
const MOST_CELLS: usize = 0xFFFF_FF00;

/// So many slots a row has at most, so that 16 bits count them.
const MOST_SLOTS: u16 = 0xFFFF;

/// How many slots stand in the head.
const HEAD: usize = 3;

/// How many cells of the list stand in the row itself, where it has no more.
const INLINE: usize = 1;

// The slots behind the head, and the stamps.
type List = SmallVec<Stamp, INLINE>;

/// The slots of a row and its stamped values, in the order of slot and then place. The first slots stand in the row, in its head,
/// so that a read of them touches the node alone; a list has the other slots and behind them the stamped values, 16 bytes each. A
/// slot is kept as a stamped value: in the place of its place stands how many stamped values there are of earlier slots, and there
/// its own begin. Where the head has cells behind the slots, the first of them is the end: all stamped values are before it. So
/// where the stamped values of a slot of the head end is read from the next cell, whether it is a slot or the end; and for the last
/// one it stands apart.
#[derive(Drop)]
pub struct Cells {
    width: u16,
    // how many slots stand behind the head
    behind: u16,
    // where the stamps of the last slot of a full head end
    end: u32,
    head: [Stamp; HEAD],
    list: List,
}

impl Model for Cells {
    ghost use Rattle.pst_rows.specs.Cells.{CellsValue, shown_cells, AreSound};

    ghost Value = { CellsValue };

    ghost view = { λ c. shown_cells c.width c.head c.list.items c.list.capacity };

    ghost invariant = { λ c. AreSound c.width c.behind c.end c.head c.list.items c.list.capacity };
}

impl Cells {
    /// No slots and no stamps, with room for so many. `NoMemory` where there is no memory for it.
    ///
    /// # Errors
    /// Where there was no memory.
    pub fn with_capacity(alloc: Global, count: usize) -> Result<Cells, NoMemory>
        ensures slots { IfOk result (λ cells. cells.slots ≡ []) }
        ensures stamps { IfOk result (λ cells. cells.stamps ≡ []) }
        ensures room { IfOk result (λ cells. cells.capacity ≤ count + 1) }
    {
        let mut list = SmallVec::new(alloc);
        reserve(&mut list, count.saturating_sub(HEAD))?;
        Ok(Cells {
            width: 0,
            behind: 0,
            end: 0,
            head: [slot_stamp(Content::Null, 0); HEAD],
            list,
        })
    }

    /// How many slots there are.
    #[inline(always)]
    pub fn width(&self) -> usize
        ensures { result ≡ length self.now.slots }
    {
        self.width as usize
    }

    /// How many stamps there are.
    #[inline(always)]
    pub fn len(&self) -> usize
        ensures value { result ≡ length self.now.stamps }
        ensures fits { result ≤ self.now.capacity }
        ensures most { result < 2 ^ 32 }
    {
        self.list.len() - self.behind as usize
    }

    /// How many stamps need no memory.
    #[inline(always)]
    pub fn capacity(&self) -> usize
        ensures value { result ≡ self.now.capacity }
        ensures most { result < 2 ^ 32 }
    {
        let _known_to_fit = self.list.len();
        self.list.capacity() - self.behind as usize
    }

    /// The allocator.
    #[inline(always)]
    pub fn allocator(&self) -> Global {
        *self.list.allocator()
    }

    /// What a slot holds from the begin of the life on.
    #[inline(always)]
    pub fn base(&self, slot: SlotNo) -> Content
        requires { slot.0 < length self.now.slots }
        ensures { result ≡ (get_or self.now.slots slot.0 no_slot).content }
    {
        self.first(slot).content()
    }

    /// Where it is kept what a slot holds from the begin of the life on.
    #[inline(always)]
    pub fn first(&self, slot: SlotNo) -> &Stamp
        requires { slot.0 < length self.now.slots }
        ensures { result.now.content ≡ (get_or self.now.slots slot.0 no_slot).content }
    {
        self.slot(usize::from(slot.0))
    }

    /// Where the stamps of a slot begin.
    #[inline(always)]
    pub fn start(&self, slot: usize) -> u32
        requires { slot < length self.now.slots }
        ensures { result ≡ (get_or self.now.slots slot no_slot).start }
    {
        self.slot(slot).place().0
    }

    /// Where the stamps of a slot begin, and where they end.
    #[inline(always)]
    pub fn part(&self, slot: SlotNo) -> (usize, usize)
        requires { slot.0 < length self.now.slots }
        ensures { IsPart self.now slot.0 result.0 result.1 }
    {
        let slot = usize::from(slot.0);
        if slot + 1 < HEAD {
            (
                self.head[slot].place().0 as usize,
                self.head[slot + 1].place().0 as usize,
            )
        } else if slot < HEAD {
            (self.head[slot].place().0 as usize, self.end as usize)
        } else {
            self.part_behind(slot)
        }
    }

    /// Whether a slot is seen at once to have no stamps: it is one of the head.
    #[inline(always)]
    pub fn is_bare(&self, slot: SlotNo) -> bool
        requires { slot.0 < length self.now.slots }
        ensures { result ≡ true → IsBare self.now slot.0 }
    {
        let slot = usize::from(slot.0);
        if slot + 1 < HEAD {
            self.head[slot].place() == self.head[slot + 1].place()
        } else {
            slot < HEAD && self.head[slot].place().0 == self.end
        }
    }

    // Where the stamps of a slot behind the head begin and end.
    #[inline(never)]
    fn part_behind(&self, slot: usize) -> (usize, usize)
        requires there { slot < length self.now.slots }
        requires behind { head_size ≤ slot }
        ensures { IsPart self.now slot result.0 result.1 }
    {
        let list = self.list.as_slice();
        let behind = self.behind as usize;
        let next = slot + 1 - HEAD;
        let stop = if next < behind {
            list[next].place().0 as usize
        } else {
            list.len() - behind
        };
        (self.start(slot) as usize, stop)
    }

    /// The stamps.
    #[inline(always)]
    pub fn stamps(&self) -> &[Stamp]
        ensures { result.now ≡ self.now.stamps }
    {
        &self.list.as_slice()[self.behind as usize..]
    }

    // A slot as it is kept.
    #[inline(always)]
    fn slot(&self, slot: usize) -> &Stamp
        requires { slot < length self.now.slots }
        ensures { slot_kept result.now ≡ get_or self.now.slots slot no_slot }
    {
        if slot < HEAD {
            &self.head[slot]
        } else {
            &self.list.as_slice()[slot - HEAD]
        }
    }

    /// Makes room for so many stamps more. `NoMemory` where there is none: then nothing changes.
    ///
    /// # Errors
    /// Where there was no memory.
    pub fn reserve(&mut self, count: usize) -> Result<(), NoMemory>
        ensures slots { self.new.slots ≡ self.old.slots }
        ensures stamps { self.new.stamps ≡ self.old.stamps }
        ensures ok { OnOk result (length self.new.stamps + count ≤ self.new.capacity) }
        ensures capacity { self.old.capacity ≤ self.new.capacity }
        ensures most { self.new.capacity ≤ max self.old.capacity (room_for (length self.old.slots) (length self.old.stamps + count)) }
        ensures err { OnErr result (self.new ≡ self.old) }
    {
        let _known_to_fit = self.list.len();
        reserve(&mut self.list, count)
    }

    /// Puts a slot behind the others, as long as there are no stamps. `NoMemory` where there is no memory for it, or the row has as
    /// many slots as it may.
    ///
    /// # Errors
    /// Where there was no memory.
    #[inline(always)]
    pub fn push_slot(&mut self, content: Content) -> Result<(), NoMemory>
        requires { self.old.stamps ≡ [] }
        ensures slots { OnOk result (self.new.slots ≡ self.old.slots ++ bare_slot content ∷ []) }
        ensures stamps { self.new.stamps ≡ [] }
        ensures most { self.new.capacity ≤ max self.old.capacity (length self.new.slots) }
    {
        if self.width == MOST_SLOTS {
            return Err(AllocError);
        }
        let slot = self.width as usize;
        if slot < HEAD {
            self.head[slot] = slot_stamp(content, 0);
            self.width += 1;
            mark_end(&mut self.head, &mut self.end, self.width, 0);
            Ok(())
        } else {
            self.push_behind(content)
        }
    }

    // Puts a slot behind the others where the head is full.
    #[inline(never)]
    fn push_behind(&mut self, content: Content) -> Result<(), NoMemory>
        requires full { head_size ≤ length self.old.slots }
        requires few { length self.old.slots < 2 ^ 16 - 1 }
        requires none { self.old.stamps ≡ [] }
        ensures slots { OnOk result (self.new.slots ≡ self.old.slots ++ bare_slot content ∷ []) }
        ensures stamps { self.new.stamps ≡ [] }
        ensures most { self.new.capacity ≤ max self.old.capacity (length self.new.slots) }
    {
        reserve(&mut self.list, 1)?;
        self.list.push_reserved(slot_stamp(content, 0));
        self.width += 1;
        self.behind += 1;
        Ok(())
    }

    /// Puts a stamp behind the others. `NoMemory` where there is no memory for it.
    ///
    /// # Errors
    /// Where there was no memory.
    pub fn push(&mut self, stamp: Stamp) -> Result<(), NoMemory>
        ensures slots { self.new.slots ≡ self.old.slots }
        ensures stamps { OnOk result (self.new.stamps ≡ self.old.stamps ++ stamp ∷ []) }
        ensures most { self.new.capacity ≤ max self.old.capacity (room_for (length self.new.slots) (length self.new.stamps)) }
    {
        reserve(&mut self.list, 1)?;
        self.list.push_reserved(stamp);
        mark_end(&mut self.head, &mut self.end, self.width, self.list.len());
        Ok(())
    }

    /// Puts a stamp at an index.
    pub fn insert(&mut self, index: usize, stamp: Stamp)
        requires index { index ≤ length self.old.stamps }
        requires room { length self.old.stamps < self.old.capacity }
        ensures slots { self.new.slots ≡ self.old.slots }
        ensures stamps { self.new.stamps ≡ inserted self.old.stamps index stamp }
        ensures capacity { self.new.capacity ≡ self.old.capacity }
        ensures most { self.new.capacity < 2 ^ 32 }
    {
        let _known_to_fit = self.list.len();
        let at = self.behind as usize + index;
        insert(&mut self.list, at, stamp);
        mark_end(&mut self.head, &mut self.end, self.width, self.list.len());
    }

    /// Puts two stamps at an index, one in front of the other.
    pub fn insert_two(&mut self, index: usize, first: Stamp, second: Stamp)
        requires index { index ≤ length self.old.stamps }
        requires room { length self.old.stamps + 2 ≤ self.old.capacity }
        ensures slots { self.new.slots ≡ self.old.slots }
        ensures stamps { self.new.stamps ≡ inserted (inserted self.old.stamps index second) index first }
        ensures capacity { self.new.capacity ≡ self.old.capacity }
        ensures most { self.new.capacity < 2 ^ 32 }
    {
        let _known_to_fit = self.list.len();
        let at = self.behind as usize + index;
        insert_two(&mut self.list, at, first, second);
        mark_end(&mut self.head, &mut self.end, self.width, self.list.len());
    }

    /// Keeps the stamps before a place, in their order.
    pub fn keep_before<O: Order>(&mut self, order: &O, at: Pos)
        requires all { All (λ e. rank (O.places order.now) e.place.0 < length (O.places order.now)) self.old.stamps }
        requires at { rank (O.places order.now) at.0 < length (O.places order.now) }
        ensures slots { self.new.slots ≡ self.old.slots }
        ensures stamps { self.new.stamps ≡ filter (λ e. nat_lt (rank (O.places order.now) e.place.0) (rank (O.places order.now) at.0)) self.old.stamps }
        ensures capacity { self.new.capacity ≤ self.old.capacity }
    {
        let _known_to_fit = self.list.len();
        keep_before(&mut self.list, self.behind as usize, order, at);
        mark_end(&mut self.head, &mut self.end, self.width, self.list.len());
    }

    /// Gives a stamp another content.
    pub fn write_content(&mut self, index: usize, content: Content)
        requires { index < length self.old.stamps }
        ensures slots { self.new.slots ≡ self.old.slots }
        ensures stamps { self.new.stamps ≡ with_content self.old.stamps index content }
        ensures capacity { self.new.capacity ≡ self.old.capacity }
    {
        let written = self.stamps()[index];
        let stamp = Stamp::new(written.slot(), written.place(), content);
        let at = self.behind as usize + index;
        write(&mut self.list, at, stamp);
    }

    /// Gives a slot another content at the begin of the life.
    pub fn write_base(&mut self, slot: SlotNo, content: Content)
        requires { slot.0 < length self.old.slots }
        ensures slots { self.new.slots ≡ with_base self.old.slots slot.0 content }
        ensures stamps { self.new.stamps ≡ self.old.stamps }
        ensures capacity { self.new.capacity ≡ self.old.capacity }
    {
        let slot = usize::from(slot.0);
        let start = self.start(slot);
        self.write_slot(slot, content, start);
    }

    /// Gives a slot another start.
    pub fn set_start(&mut self, slot: usize, start: u32)
        requires { slot < length self.old.slots }
        ensures slots { HasStart self.old.slots self.new.slots slot start }
        ensures stamps { self.new.stamps ≡ self.old.stamps }
        ensures capacity { self.new.capacity ≡ self.old.capacity }
    {
        if slot < HEAD {
            set_place(&mut self.head, slot, Pos(start));
        } else {
            self.end = end_at(self.end, slot, start);
            set_place(self.list.as_mut_slice(), slot - HEAD, Pos(start));
        }
    }

    // Writes a slot anew.
    fn write_slot(&mut self, slot: usize, content: Content, start: u32)
        requires { slot < length self.old.slots }
        ensures slots { self.new.slots ≡ set self.old.slots slot (record { content = content; start = start }) }
        ensures stamps { self.new.stamps ≡ self.old.stamps }
        ensures capacity { self.new.capacity ≡ self.old.capacity }
    {
        let stamp = slot_stamp(content, start);
        if slot < HEAD {
            self.head[slot] = stamp;
        } else {
            self.end = end_at(self.end, slot, start);
            write(&mut self.list, slot - HEAD, stamp);
        }
    }
}

// Makes room in a list for so many more: half as much again as it has room for, or what is asked for where that is more. `NoMemory`
// where there is none: then nothing changes.
fn reserve(list: &mut List, count: usize) -> Result<(), NoMemory>
    requires { list.old.capacity ≤ 2 ^ 32 - 256 }
    ensures items { list.new.items ≡ list.old.items }
    ensures ok { OnOk result (HasRoomFor list.new count) }
    ensures capacity { list.old.capacity ≤ list.new.capacity }
    ensures most { list.new.capacity ≤ 2 ^ 32 - 256 }
    ensures half { 2 * list.new.capacity ≤ max (3 * list.old.capacity) (2 * (length list.old.items + count)) }
    ensures twice { list.new.capacity ≤ max list.old.capacity (2 * (length list.old.items + count)) }
    ensures err { OnErr result (list.new ≡ list.old) }
{
    let len = list.len();
    let capacity = list.capacity();
    if count <= capacity - len {
        return Ok(());
    }
    if count > MOST_CELLS - len {
        return Err(AllocError);
    }
    let wanted = (len + count).max(capacity + capacity / 2);
    list.grow(wanted.min(MOST_CELLS))
}

// Puts one into a list that has room.
fn insert(list: &mut List, index: usize, stamp: Stamp)
    requires index { index ≤ length list.old.items }
    requires room { HasRoomFor list.old 1 }
    ensures items { list.new.items ≡ inserted list.old.items index stamp }
    ensures capacity { list.new.capacity ≡ list.old.capacity }
{
    let _there_is_room = list.insert(index, stamp);
}

// Puts two into a list that has room.
fn insert_two(list: &mut List, index: usize, first: Stamp, second: Stamp)
    requires index { index ≤ length list.old.items }
    requires room { HasRoomFor list.old 2 }
    ensures items { list.new.items ≡ inserted (inserted list.old.items index second) index first }
    ensures capacity { list.new.capacity ≡ list.old.capacity }
{
    let len = list.len();

    // These two make the room, into which the later ones move.
    list.push_reserved(first);
    list.push_reserved(second);
    let items = list.as_mut_slice();
    items.copy_within(index..len, index + 2);
    items[index] = first;
    items[index + 1] = second;
}

// Keeps of a list so many cells at its front, and of those behind them the stamps before a place. Where it then finds room in the
// row itself, or has more than twice the room that it needs, it gives that room back.
fn keep_before<O: Order>(list: &mut List, front: usize, order: &O, at: Pos)
    requires front { front ≤ length list.old.items }
    requires all { All (λ e. rank (O.places order.now) e.place.0 < length (O.places order.now)) (drop front list.old.items) }
    requires at { rank (O.places order.now) at.0 < length (O.places order.now) }
    ensures items { list.new.items ≡ take front list.old.items ++ filter (λ e. nat_lt (rank (O.places order.now) e.place.0) (rank (O.places order.now) at.0)) (drop front list.old.items) }
    ensures capacity { list.new.capacity ≤ list.old.capacity }
{
    let kept = move_before(list.as_mut_slice(), front, order, at);
    list.truncate(kept);
    if list.len() <= INLINE || list.len() < list.capacity() / 2 {
        list.shrink_to_fit();
    }
}

// Moves the stamps before a place, in their order, to the front of those behind so many cells; gives where they end then.
fn move_before<O: Order>(cells: &mut [Stamp], front: usize, order: &O, at: Pos) -> usize
    requires front { front ≤ length cells.old }
    requires all { All (λ e. rank (O.places order.now) e.place.0 < length (O.places order.now)) (drop front cells.old) }
    requires at { rank (O.places order.now) at.0 < length (O.places order.now) }
    ensures kept { take result cells.new ≡ take front cells.old ++ filter (λ e. nat_lt (rank (O.places order.now) e.place.0) (rank (O.places order.now) at.0)) (drop front cells.old) }
    ensures count { length cells.new ≡ length cells.old }
{
    let mut kept = front;
    for index in front..cells.len() {
        let stamp = cells[index];
        if order.before(stamp.place(), at) {
            cells[kept] = stamp;
            kept += 1;
        }
    }
    kept
}

// Marks the end behind so many slots with how many stamps there are, where it stands in the head or directly behind it.
#[inline(always)]
fn mark_end(head: &mut [Stamp; HEAD], end: &mut u32, width: u16, count: usize)
    requires { count < 2 ^ 32 }
    ensures head { IsMarked head.old head.new width count }
    ensures full { width ≡ head_size → end.new ≡ count }
    ensures kept { width ≢ head_size → end.new ≡ end.old }
{
    let slots = width as usize;
    if slots < HEAD {
        set_place(head, slots, Pos(count as u32));
    } else if slots == HEAD {
        *end = count as u32;
    }
}

// Where the head ends, once the stamps of a slot behind it begin at a start.
#[inline(always)]
fn end_at(end: u32, slot: usize, start: u32) -> u32
    ensures next { slot ≡ head_size → result ≡ start }
    ensures later { slot ≢ head_size → result ≡ end }
{
    if slot == HEAD { start } else { end }
}

// A slot as it is kept.
fn slot_stamp(content: Content, start: u32) -> Stamp
    ensures { slot_kept result ≡ record { content = content; start = start } }
{
    Stamp::new(SlotNo(0), Pos(start), content)
}

// Gives one of these another place.
#[inline(always)]
fn set_place(stamps: &mut [Stamp], index: usize, place: Pos)
    requires { index < length stamps.old }
    ensures { stamps.new ≡ set stamps.old index (at_place (get_or stamps.old index no_cell) place) }
{
    stamps[index].set_place(place);
}

// Writes one of a list anew.
fn write(list: &mut List, index: usize, stamp: Stamp)
    requires { index < length list.old.items }
    ensures items { list.new.items ≡ set list.old.items index stamp }
    ensures capacity { list.new.capacity ≡ list.old.capacity }
{
    list.as_mut_slice()[index] = stamp;
}
