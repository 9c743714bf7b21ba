//! The order by labels: a circular list in which each place has a label.
//!
//! Model: the list of places, the label of each (below 2^62), and the spare room.
//!
//! Contract: that of an order, and after every insertion the labels are exactly those of the rule; no insertion is refused for
//! want of labels, and none where there is spare room. (After Dietz and Sleator; the rule is this project's own.)
//!
//!     let mut order = LabelOrder::new(alloc)?;

ghost use Rattle.std.specs.Prelude.{◌≡◌, ℕ, suc, ◌+◌, ◌-◌, ◌/◌, ◌%◌, ◌*◌, ◌^◌, ◌<◌, ◌≤◌, ◌↔◌, List, [], ◌∷◌, length, get_or, slice_get, take, IsTrue, IfOk, IsOk, OnOk, OnErr};
ghost use Rattle.std.specs.Option.{option_map};
ghost use Rattle.pst_order.specs.declared.order.Pos.{Pos};
ghost use Rattle.pst_order.specs.Places.{rank, IsIn, AreBelow, AreDistinct, IsInsertedAfter};
ghost use Rattle.pst_order.specs.Labels.{circle, ahead as way, label_of, offset as offset_of, around, reach, width, spread as spaced, with_room, gap, labels_after, walk, LeastLaw, AheadLaw};

use crate::{Order, Pos, Walked};
use pst_base::NoMemory;
use std::alloc::Global;
use std::marker::Model;

// How many labels there are: they go from 0 to CIRCLE - 1, round a circle.
const CIRCLE: u64 = 1 << 62;

/// The places in a circle, each with a label. The first place is the base: the way from its label round the circle to that
/// of another place tells where the other one stands. A comparison takes the same short time however long the list is.
#[derive(Drop)]
pub struct LabelOrder {
    next: Vec<u32>,
    labels: Vec<u64>,
}

impl Model for LabelOrder {
    ghost use Rattle.std.specs.Prelude.{length, vec_len, vec_capacity};
    ghost use Rattle.pst_order.specs.Labels.{Labelled, room_for, walk, IsRing};

    ghost Value = { Labelled };

    ghost view = { λ a. record {
      places = walk a.next.items (length a.next.items) 0;
      labels = a.labels.items;
      spare = room_for (vec_capacity a.next) (vec_len a.next) (vec_capacity a.labels) (vec_len a.labels);
    } };

    ghost invariant = { λ a. IsRing a.next.items a.labels.items };
}

impl LabelOrder {
    /// The label of a place, below 2^62. It may change with each insertion, so it is for tests.
    pub fn label(&self, place: Pos) -> u64
        requires { IsIn self.now.places place.0 }
        ensures label { result ≡ label_of self.now.labels place.0 }
        ensures low { result < circle }
    {
        self.labels[place.0 as usize]
    }

    /// The place behind another one, or none behind the last.
    pub fn next(&self, place: Pos) -> Option<Pos>
        requires { IsIn self.now.places place.0 }
        ensures { option_map (λ (q : Pos). q.0) result ≡ slice_get self.now.places (suc (rank self.now.places place.0)) }
    {
        let behind = self.next[place.0 as usize];
        if behind == 0 { None } else { Some(Pos(behind)) }
    }

    /// How many places more need no memory.
    pub fn spare(&self) -> usize
        ensures { result ≡ self.now.spare }
    {
        let links = self.next.capacity() - self.next.len();
        links.min(self.labels.capacity() - self.labels.len())
    }

    /// Makes room for so many places more. The list stays, also where there is no memory for them.
    ///
    /// # Errors
    /// Where there was no memory.
    pub fn reserve(&mut self, count: usize) -> Result<(), NoMemory>
        ensures places { self.new.places ≡ self.old.places }
        ensures labels { self.new.labels ≡ self.old.labels }
        ensures ok { OnOk result (count ≤ self.new.spare) }
        ensures as_well { self.old.spare ≤ self.new.spare }
        ensures succeeds { count ≤ self.old.spare → IsOk result }
    {
        self.next.reserve(count)?;
        self.labels.reserve(count)
    }
}

impl Order for LabelOrder {
    ghost places = { λ s. s.places };

    fn new(alloc: Global) -> Result<LabelOrder, NoMemory>
        ensures one { IfOk result (λ order. length order.places ≡ 1) }
        ensures label { IfOk result (λ order. order.labels ≡ 0 ∷ []) }
    {
        let mut next = Vec::new(alloc);
        let mut labels = Vec::new(alloc);
        next.push(0)?;
        labels.push(0)?;
        Ok(LabelOrder { next, labels })
    }

    fn first(&self) -> Pos {
        let _places = self.next.len();
        Pos(0)
    }

    // A label is there behind every place, so no insertion is refused for want of one: `found` and `gap` hold whatever the
    // answer, and where there is spare room the answer is a place.
    fn insert_after(&mut self, place: Pos) -> Result<Pos, NoMemory>
        requires in_list { IsIn self.old.places place.0 }
        requires few { length self.old.places < 2 ^ 30 }
        ensures ok { IfOk result (λ z. IsInsertedAfter self.old.places self.new.places place.0 z.0) }
        ensures labels { IfOk result (λ z. self.new.labels ≡ labels_after self.old.labels (around self.old.places place.0) place.0) }
        ensures found { reach self.old.labels (label_of self.old.labels place.0) (around self.old.places place.0) 1 ≤ length self.old.places }
        ensures gap { 2 ≤ gap self.old.labels (around self.old.places place.0) place.0 }
        ensures spare { OnOk result (self.old.spare ≤ self.new.spare + 1) }
        ensures succeeds { 1 ≤ self.old.spare → IsOk result }
        ensures err { OnErr result (self.new ≡ self.old) }
    {
        self.next.reserve(1)?;
        self.labels.reserve(1)?;
        let fresh = self.next.len() as u32;
        let label = make_room(&self.next, &mut self.labels, place.0);
        self.labels.push(label)?;
        let behind = self.next[place.0 as usize];
        self.next.push(behind)?;
        self.next[place.0 as usize] = fresh;
        Ok(Pos(fresh))
    }

    fn before(&self, a: Pos, b: Pos) -> bool {
        fourfold_offset(&self.labels, a) < fourfold_offset(&self.labels, b)
    }

    fn follows(&self, a: Pos, b: Pos) -> bool {
        b.0 != 0 && self.next[a.0 as usize] == b.0
    }
}

impl Walked for LabelOrder {
    fn next(&self, place: Pos) -> Option<Pos> {
        LabelOrder::next(self, place)
    }

    fn numbered(&self) {
        let _places = self.next.len();
    }
}

// Four times how far a place's label is from the first one's: what lies beyond the circle then falls off a number of 64 bits, and
// a comparison needs no remainder.
#[inline(always)]
fn fourfold_offset(labels: &[u64], place: Pos) -> u64
    requires low { AreBelow circle labels.now }
    requires place { place.0 < length labels.now }
    ensures { result ≡ 4 * offset_of labels.now place.0 }
{
    (labels[place.0 as usize] + CIRCLE - labels[0]) << 2
}

// The way round the circle from one label to another: the whole circle, from a label to itself.
fn ahead(a: u64, b: u64) -> u64
    requires a { a < circle }
    requires b { b < circle }
    ensures result { result ≡ way a b }
    ensures low { result ≤ circle }
{
    if a < b { b - a } else { b + CIRCLE - a }
}

// A label some way ahead.
fn shifted(a: u64, by: u64) -> u64
    requires a { a < circle }
    requires by { by ≤ circle }
    ensures result { result ≡ (a + by) % circle }
    ensures low { result < circle }
{
    (a + by) % CIRCLE
}

// So many whole units, and so many parts of one more.
#[derive(Clone, Copy)]
struct Mixed {
    whole: u64,
    parts: u64,
}

// The sum of two mixed numbers, where so many parts are a unit.
#[inline(always)]
fn mixed_sum(a: Mixed, b: Mixed, unit: u64) -> Mixed
    requires a { a.whole ≤ circle }
    requires b { b.whole ≤ circle }
    requires a_proper { a.parts < unit }
    requires b_proper { b.parts < unit }
    ensures sum { result.whole * unit + result.parts ≡ (a.whole * unit + a.parts) + (b.whole * unit + b.parts) }
    ensures proper { result.parts < unit }
{
    let whole = a.whole + b.whole;
    let missing = unit - b.parts;
    if a.parts < missing {
        Mixed {
            whole,
            parts: a.parts + b.parts,
        }
    } else {
        Mixed {
            whole: whole + 1,
            parts: a.parts - missing,
        }
    }
}

// How many successors of a place are reached, and how far ahead of the place the last of them is.
#[derive(Clone, Copy)]
struct Reach {
    steps: u64,
    width: u64,
}

// The least count of successors of a place whose last one is further ahead than the count's square. In a list of fewer
// than 2^30 places there is one, since the whole circle is wider than the square of their count.
fn find_room(next: &[u32], labels: &[u64], place: u32) -> Reach
    requires same { length labels.now ≡ length next.now }
    requires inside { AreBelow (length next.now) next.now }
    requires low { AreBelow circle labels.now }
    requires place { place < length next.now }
    requires few { length next.now < 2 ^ 30 }
    requires found { reach labels.now (label_of labels.now place) (walk next.now (length next.now) (get_or next.now place 0)) 1 ≤ length next.now }
    ensures steps { result.steps ≡ reach labels.now (label_of labels.now place) (walk next.now (length next.now) (get_or next.now place 0)) 1 }
    ensures width { result.width ≡ width labels.now (label_of labels.now place) (walk next.now (length next.now) (get_or next.now place 0)) }
    ensures low { result.width ≤ circle }
    ensures some { 1 ≤ result.steps }
{
    let start = labels[place as usize];
    let mut steps: u64 = 1;
    let mut at = next[place as usize];
    let mut width = ahead(start, labels[at as usize]);
    while width <= steps * steps {
        at = next[at as usize];
        steps += 1;
        width = ahead(start, labels[at as usize]);
    }
    Reach { steps, width }
}

// Labels the places from one on, up to the last that is reached, at even distances.
fn spread(next: &[u32], labels: &mut [u64], first: u32, start: u64, room: &Reach)
    requires same { length labels.old ≡ length next.now }
    requires inside { AreBelow (length next.now) next.now }
    requires low { AreBelow circle labels.old }
    requires first { first < length next.now }
    requires start { start < circle }
    requires width { room.now.width ≤ circle }
    requires steps { room.now.steps ≤ length next.now }
    ensures spread { let r = room.now in labels.new ≡ spaced labels.old (take (r.steps - 1) (walk next.now (length next.now) first)) start r.width r.steps 1 }
    ensures low { AreBelow circle labels.new }
{
    if room.steps < 2 {
        return;
    }
    // The shares are added up, so that no division is made for each place.
    let share = Mixed {
        whole: room.width / room.steps,
        parts: room.width % room.steps,
    };
    let mut way = share;
    let mut at = first;
    for _nth in 1..room.steps {
        labels[at as usize] = shifted(start, way.whole);
        at = next[at as usize];
        way = mixed_sum(way, share, room.steps);
    }
}

// Makes room behind a place, and gives the label for a new place there: half way to the place's successor.
fn make_room(next: &[u32], labels: &mut [u64], place: u32) -> u64
    requires same { length labels.old ≡ length next.now }
    requires inside { AreBelow (length next.now) next.now }
    requires low { AreBelow circle labels.old }
    requires place { place < length next.now }
    requires few { length next.now < 2 ^ 30 }
    requires found { reach labels.old (label_of labels.old place) (walk next.now (length next.now) (get_or next.now place 0)) 1 ≤ length next.now }
    ensures room { labels.new ≡ with_room labels.old (walk next.now (length next.now) (get_or next.now place 0)) place }
    ensures result { result ≡ (label_of labels.old place + gap labels.old (walk next.now (length next.now) (get_or next.now place 0)) place / 2) % circle }
    ensures low { result < circle }
    ensures each_low { AreBelow circle labels.new }
{
    let start = labels[place as usize];
    let first = next[place as usize];
    let room = find_room(next, labels, place);
    spread(next, labels, first, start, &room);
    let gap = ahead(start, labels[first as usize]);
    shifted(start, gap / 2)
}

/// What the definitions of the label rule say: the count of successors that are reached is the least one that will do, and
/// the way ahead is the distance of two labels modulo the circle.
pub fn rule()
    ensures least { LeastLaw }
    ensures ahead { AheadLaw }
{}
