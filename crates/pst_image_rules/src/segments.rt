//! The segments of the slots of a node.

ghost use Rattle.std.specs.Prelude.{◌≡◌, ◌↔◌, ◌<◌, ◌≢◌, true, IsTrue, IfSome, length, option_map};
ghost use Rattle.pst_image_rules.specs.Nodes.{stamp_of};
ghost use Rattle.pst_image_rules.specs.Segments.{begins, ends, is_at as at, is_before as before, IsSorted, IsPosition, IsNextPosition};

use pst_base::SlotNo;
use pst_image_form::{NodePart, StampPart};

/// A segment that begins at a place: what it holds, and where it ends.
#[derive(Clone, Copy)]
pub struct Segment {
    pub content: u64,
    pub end: u32,
}

/// Whether the stamped value with a number stands before the slot and the place.
fn is_before(node: &NodePart, index: usize, slot: SlotNo, place: u32) -> bool
    requires { index < length node.now.stamps }
    ensures { result ≡ before slot.0 place (stamp_of node.now index) }
{
    let stamp = node.stamps.as_slice()[index];
    stamp.slot.0 < slot.0 || stamp.slot.0 == slot.0 && stamp.place < place
}

/// How many stamped values stand before the slot and the place, by bisection.
fn position(node: &NodePart, slot: SlotNo, place: u32) -> usize
    requires { IsSorted node.now }
    ensures { IsPosition node.now slot.0 place result }
{
    let mut low = 0;
    let mut high = node.stamps.as_slice().len();
    while low < high {
        let middle = low + (high - low) / 2;
        if is_before(node, middle, slot, place) {
            low = middle + 1;
        } else {
            high = middle;
        }
    }
    low
}

/// Whether a stamped value is of the slot and stands at the place.
fn is_at(stamp: StampPart, slot: SlotNo, place: u32) -> bool
    ensures { result ≡ at slot.0 place stamp }
{
    stamp.slot.0 == slot.0 && stamp.place == place
}

/// Whether the stamped value at a position is of the slot and stands at the place.
fn is_there(node: &NodePart, slot: SlotNo, place: u32, position: usize) -> bool
    ensures { IsTrue result ↔ ((position < length node.now.stamps) × (at slot.0 place (stamp_of node.now position) ≡ true)) }
{
    let stamps = node.stamps.as_slice();
    position < stamps.len() && is_at(stamps[position], slot, place)
}

/// What the segment of the slot holds that begins at the place, if one does.
fn content_at(node: &NodePart, slot: SlotNo, place: u32, position: usize) -> Option<u64>
    requires sorted { IsSorted node.now }
    requires position { IsPosition node.now slot.0 place position }
    requires slot { slot.0 < length node.now.bases }
    ensures { result ≡ begins node.now slot.0 place }
{
    if place == node.lo {
        return Some(node.bases.as_slice()[usize::from(slot.0)]);
    }
    if is_there(node, slot, place, position) {
        return Some(node.stamps.as_slice()[position].content);
    }
    None
}

/// How many stamped values do not stand behind the slot and the place.
fn next_position(node: &NodePart, slot: SlotNo, place: u32, position: usize) -> usize
    requires sorted { IsSorted node.now }
    requires position { IsPosition node.now slot.0 place position }
    ensures { IsNextPosition node.now slot.0 place result }
{
    let count = node.stamps.as_slice().len();
    if count <= position {
        return position;
    }
    if is_there(node, slot, place, position) {
        return position + 1;
    }
    position
}

/// Where the segment of the slot ends that begins at the place.
fn end_at(node: &NodePart, slot: SlotNo, place: u32, next: usize) -> u32
    requires sorted { IsSorted node.now }
    requires next { IsNextPosition node.now slot.0 place next }
    ensures { result ≡ ends node.now slot.0 place }
{
    let stamps = node.stamps.as_slice();
    if stamps.len() <= next {
        return node.hi;
    }
    let stamp = stamps[next];
    if stamp.slot.0 == slot.0 {
        stamp.place
    } else {
        node.hi
    }
}

/// The segment of the slot that begins at the place, if one does. It takes time by the logarithm of the number of stamped values.
pub fn segment_at(node: &NodePart, slot: SlotNo, place: u32) -> Option<Segment>
    requires sorted { IsSorted node.now }
    requires slot { slot.0 < length node.now.bases }
    ensures content { option_map (λ s. s.content) result ≡ begins node.now slot.0 place }
    ensures end { IfSome result (λ s. s.end ≡ ends node.now slot.0 place) }
{
    let position = position(node, slot, place);
    match content_at(node, slot, place, position) {
        None => None,
        Some(content) => {
            let next = next_position(node, slot, place, position);
            let end = end_at(node, slot, place, next);
            Some(Segment { content, end })
        }
    }
}
