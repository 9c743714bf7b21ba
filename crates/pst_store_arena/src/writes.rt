//! Writes of one field over one place: memory first, then the change, then the queue. What is so of nodes at all times stays so.

ghost use Rattle.std.specs.Prelude.{◌≡◌, ℕ, suc, ◌<◌, ◌≤◌, ◌⊎◌, List, length, map, Some, None, OnOk, OnErr};
ghost use Rattle.pst_base.specs.declared.names.Kind.TheVariants.{Pointer};
ghost use Rattle.pst_base.specs.Heap.{IsPointer};
ghost use Rattle.pst_base.specs.Shape.{field_kind};
ghost use Rattle.pst_order.specs.Places.{rank};
ghost use Rattle.pst_mirror.specs.Charts.{AllRows};
ghost use Rattle.pst_mirror.specs.Lives.{IsIn};
ghost use Rattle.pst_mirror.specs.Mirror.{IsMirrored};
ghost use Rattle.pst_nodes.specs.Arena.{rows_of, frames_of, AreRows, chart, lives, type_no, type_of, IsSlot, IsTyped, IsOpenSlot};
ghost use Rattle.pst_nodes.specs.Changes.{AreSameNodes};
ghost use Rattle.pst_repair.specs.Load.{IsSound};
ghost use Rattle.pst_repair.specs.Steps.{Queues, KeepsQueue};
ghost use Rattle.pst_store_meaning.specs.Store.{AreWide};
ghost use Rattle.pst_repair.specs.Seen.{seen_in};
ghost use Rattle.pst_repair.specs.Repair.{IsQueued};
ghost use Rattle.pst_store_arena.specs.Calls.{IsNumberWritten, IsNullWritten, IsPointerWritten};
ghost use Rattle.pst_store_arena.specs.Writes.{HoldsPointer, LeadsTo, IsNode, IsOneOf, slot_stamps, pair_stamps, HasRoomFor, HaveRoom, IsFieldCleared};

use pst_base::{NoMemory, NodeId, Shape, SlotNo};
use pst_nodes::node::Nodes;
use pst_nodes::queue::Queue;
use pst_order::{Order, Pos};
use pst_repair::load::queue_if_over;
use pst_rows::Content;
use pst_store_meaning::place::Place;

/// Writes a number over a place, in a node that lives there. All memory is taken first; the node waits where it is above its
/// capacity then. A refusal changes nothing but room.
///
/// # Errors
/// Where there was no memory.
pub fn set_number<O: Order>(
    order: &O,
    shape: &Shape,
    nodes: &mut Nodes,
    queue: &mut Queue,
    id: NodeId,
    field: SlotNo,
    at: Place,
    n: i64,
) -> Result<(), NoMemory>
    requires sound { IsSound shape.now (O.places order.now) nodes.old.list.items }
    requires queued { (xs : List ℕ) × IsQueued shape.now nodes.old.list.items queue.old xs }
    requires inside { IsIn (lives (O.places order.now) nodes.old.list.items) id.0 (rank (O.places order.now) at.begin.0) }
    requires behind { rank (O.places order.now) at.end.0 ≡ suc (rank (O.places order.now) at.begin.0) }
    requires field { field.0 < (type_of shape.now nodes.old.list.items id.0).values }
    ensures set { OnOk result (IsNumberWritten shape.now (O.places order.now) (seen_in nodes.old) (seen_in nodes.new) id.0 field.0 at n) }
    ensures rows { OnOk result (AllRows (rank (O.places order.now)) (length (O.places order.now)) (map (λ k. k.row) (seen_in nodes.new))) }
    ensures wide { OnOk result (AreWide shape.now (seen_in nodes.new)) }
    ensures sound { OnOk result (IsSound shape.now (O.places order.now) nodes.new.list.items) }
    ensures queued { (xs : List ℕ) × IsQueued shape.now nodes.new.list.items queue.new xs }
    ensures err_nodes { OnErr result (AreSameNodes nodes.old.list.items nodes.new.list.items) }
    ensures err_queue { OnErr result (queue.new ≡ queue.old) }
{
    nodes.reserve_row(id, 2)?;
    nodes.set_over(order, id, field, at.begin, at.end, Content::Number(n));
    queue_if_over(shape, nodes, queue, id);
    Ok(())
}

/// Writes null into a field over a place, in a node that lives there: nothing where it is null, else its pointer and the
/// entry of it are taken away. All memory is taken first; what is above its capacity then waits. A refusal changes nothing but
/// room.
///
/// # Errors
/// Where there was no memory.
pub fn set_null<O: Order>(
    order: &O,
    shape: &Shape,
    nodes: &mut Nodes,
    queue: &mut Queue,
    id: NodeId,
    field: SlotNo,
    at: Place,
) -> Result<(), NoMemory>
    requires sound { IsSound shape.now (O.places order.now) nodes.old.list.items }
    requires queued { (xs : List ℕ) × IsQueued shape.now nodes.old.list.items queue.old xs }
    requires inside { IsIn (lives (O.places order.now) nodes.old.list.items) id.0 (rank (O.places order.now) at.begin.0) }
    requires behind { rank (O.places order.now) at.end.0 ≡ suc (rank (O.places order.now) at.begin.0) }
    requires field { IsPointer (field_kind (type_of shape.now nodes.old.list.items id.0) field.0) }
    ensures set { OnOk result (IsNullWritten shape.now (O.places order.now) (seen_in nodes.old) (seen_in nodes.new) id.0 field.0 at) }
    ensures rows { OnOk result (AllRows (rank (O.places order.now)) (length (O.places order.now)) (map (λ k. k.row) (seen_in nodes.new))) }
    ensures wide { OnOk result (AreWide shape.now (seen_in nodes.new)) }
    ensures sound { OnOk result (IsSound shape.now (O.places order.now) nodes.new.list.items) }
    ensures queued { (xs : List ℕ) × IsQueued shape.now nodes.new.list.items queue.new xs }
    ensures err_nodes { OnErr result (AreSameNodes nodes.old.list.items nodes.new.list.items) }
    ensures err_queue { OnErr result (queue.new ≡ queue.old) }
{
    let led = led_to(order, nodes, id, field, at.begin);
    if led.is_none() {
        return Ok(());
    }
    reserve_pair(nodes, id, led, None)?;
    clear(order, nodes, id, field, at, led);
    queue_pair(shape, nodes, queue, id, led);
    Ok(())
}

/// Writes a pointer into a field over a place, in a node that lives there: the one that it holds is taken away, and the new one
/// is put in by an inverse slot of the target, which lives there too. All memory is taken first; what is above its capacity
/// then waits. A refusal changes nothing but room.
///
/// # Errors
/// Where there was no memory.
pub fn set_target<O: Order>(
    order: &O,
    shape: &Shape,
    nodes: &mut Nodes,
    queue: &mut Queue,
    id: NodeId,
    field: SlotNo,
    at: Place,
    target: NodeId,
    slot: SlotNo,
) -> Result<(), NoMemory>
    requires sound { IsSound shape.now (O.places order.now) nodes.old.list.items }
    requires queued { (xs : List ℕ) × IsQueued shape.now nodes.old.list.items queue.old xs }
    requires inside { IsIn (lives (O.places order.now) nodes.old.list.items) id.0 (rank (O.places order.now) at.begin.0) }
    requires target { IsIn (lives (O.places order.now) nodes.old.list.items) target.0 (rank (O.places order.now) at.begin.0) }
    requires behind { rank (O.places order.now) at.end.0 ≡ suc (rank (O.places order.now) at.begin.0) }
    requires field { field_kind (type_of shape.now nodes.old.list.items id.0) field.0 ≡ Some (Pointer (type_no nodes.old.list.items target.0)) }
    requires slot { IsOpenSlot shape.now (O.places order.now) nodes.old.list.items target.0 (rank (O.places order.now) at.begin.0) id.0 field.0 slot.0 }
    ensures set { OnOk result (IsPointerWritten shape.now (O.places order.now) (seen_in nodes.old) (seen_in nodes.new) id.0 field.0 at target.0 slot.0) }
    ensures rows { OnOk result (AllRows (rank (O.places order.now)) (length (O.places order.now)) (map (λ k. k.row) (seen_in nodes.new))) }
    ensures wide { OnOk result (AreWide shape.now (seen_in nodes.new)) }
    ensures sound { OnOk result (IsSound shape.now (O.places order.now) nodes.new.list.items) }
    ensures queued { (xs : List ℕ) × IsQueued shape.now nodes.new.list.items queue.new xs }
    ensures err_nodes { OnErr result (AreSameNodes nodes.old.list.items nodes.new.list.items) }
    ensures err_queue { OnErr result (queue.new ≡ queue.old) }
{
    let previous = led_to(order, nodes, id, field, at.begin);
    reserve_row(nodes, target, id, previous, Some(target))?;
    reserve_pair(nodes, id, previous, Some(target))?;
    clear(order, nodes, id, field, at, previous);
    nodes.link(order, at.begin, at.end, id, field, target, slot);
    queue_if_over(shape, nodes, queue, target);
    queue_pair(shape, nodes, queue, id, previous);
    Ok(())
}

// The node that a field leads to at a place, or None where the field is null there.
#[inline(always)]
fn led_to<O: Order>(order: &O, nodes: &Nodes, id: NodeId, field: SlotNo, at: Pos) -> Option<NodeId>
    requires rows { AreRows (O.places order.now) nodes.now.list.items }
    requires slot { IsSlot (O.places order.now) nodes.now.list.items id.0 field.0 (rank (O.places order.now) at.0) }
    requires pointer { HoldsPointer (chart (O.places order.now) nodes.now.list.items) id.0 field.0 (rank (O.places order.now) at.0) }
    ensures { LeadsTo (chart (O.places order.now) nodes.now.list.items) id.0 field.0 (rank (O.places order.now) at.0) result }
{
    match nodes.read(order, id, field, at) {
        Content::Target(node) => Some(node),
        _ => None,
    }
}

// Makes room for a pointer write in the row of a node and of the one that its field leads to. A refusal changes nothing but
// room.
#[inline(always)]
fn reserve_pair(
    nodes: &mut Nodes,
    id: NodeId,
    led: Option<NodeId>,
    target: Option<NodeId>,
) -> Result<(), NoMemory>
    requires there { (i : ℕ) → IsOneOf id.0 led i → i < length nodes.old.list.items }
    ensures same { AreSameNodes nodes.old.list.items nodes.new.list.items }
    ensures room { OnOk result (HaveRoom nodes.new.list.items id.0 led target) }
{
    reserve_row(nodes, id, id, led, target)?;
    match led {
        Some(node) => reserve_row(nodes, node, id, led, target),
        None => Ok(()),
    }
}

// Makes room in the row of a node for what a pointer write stamps in it: a field of `id` is taken from one node, and led to
// another. A refusal changes nothing but room.
fn reserve_row(
    nodes: &mut Nodes,
    node: NodeId,
    id: NodeId,
    led: Option<NodeId>,
    target: Option<NodeId>,
) -> Result<(), NoMemory>
    requires { node.0 < length nodes.old.list.items }
    ensures same { AreSameNodes nodes.old.list.items nodes.new.list.items }
    ensures room { OnOk result (HasRoomFor nodes.new.list.items id.0 led target node.0) }
{
    let taken = pair_stamps(node, id, led);
    let put = pair_stamps(node, id, target);
    nodes.reserve_row(node, taken + put)
}

// How many values are stamped at most in the row of a node where a pointer of `id` to another node and its entry are written:
// two for each slot of it that is set.
fn pair_stamps(node: NodeId, id: NodeId, other: Option<NodeId>) -> usize
    ensures stamps { result ≡ pair_stamps id.0 other node.0 }
    ensures few { result ≤ 4 }
{
    match other {
        Some(entered) => slot_stamps(node, id) + slot_stamps(node, entered),
        None => 0,
    }
}

// How many values are stamped at most in the row of a node where a slot of another one is set, or of the same.
fn slot_stamps(node: NodeId, set: NodeId) -> usize
    ensures { result ≡ slot_stamps set.0 node.0 }
{
    if node == set { 2 } else { 0 }
}

// Takes away the pointer that a field holds over a place, if it holds one, and its entry.
#[inline(always)]
fn clear<O: Order>(
    order: &O,
    nodes: &mut Nodes,
    id: NodeId,
    field: SlotNo,
    at: Place,
    led: Option<NodeId>,
)
    requires rows { AreRows (O.places order.now) nodes.old.list.items }
    requires mirrored { IsMirrored (chart (O.places order.now) nodes.old.list.items) }
    requires behind { rank (O.places order.now) at.end.0 ≡ suc (rank (O.places order.now) at.begin.0) }
    requires there { id.0 < length nodes.old.list.items }
    requires led { LeadsTo (chart (O.places order.now) nodes.old.list.items) id.0 field.0 (rank (O.places order.now) at.begin.0) led }
    requires room { HaveRoom nodes.old.list.items id.0 led None }
    ensures { IsFieldCleared (O.places order.now) nodes.old.list.items nodes.new.list.items id.0 field.0 (rank (O.places order.now) at.begin.0) led }
{
    if led.is_some() {
        nodes.unlink(order, at.begin, at.end, id, field);
    }
}

// Lets a node and the one that its field led to wait, each where it is over its capacity.
#[inline(always)]
fn queue_pair(
    shape: &Shape,
    nodes: &mut Nodes,
    queue: &mut Queue,
    first: NodeId,
    led: Option<NodeId>,
)
    requires there { (i : ℕ) → IsOneOf first.0 led i → i < length nodes.old.list.items }
    requires typed { (i : ℕ) → i < length nodes.old.list.items → IsTyped shape.now nodes.old.list.items i }
    requires held { (xs : List ℕ) × Queues nodes.old.list.items queue.old xs }
    ensures rows { rows_of nodes.new.list.items ≡ rows_of nodes.old.list.items }
    ensures frames { frames_of nodes.new.list.items ≡ frames_of nodes.old.list.items }
    ensures queue { KeepsQueue (IsOneOf first.0 led) shape.now nodes.old.list.items nodes.new.list.items queue.old queue.new }
{
    queue_if_over(shape, nodes, queue, first);
    if let Some(node) = led {
        queue_if_over(shape, nodes, queue, node);
    }
}
