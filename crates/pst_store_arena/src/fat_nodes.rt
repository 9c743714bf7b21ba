//! The arena of fat nodes, as a store uses it.

ghost use Rattle.std.specs.Prelude.{◌≡◌, ◌<◌, ◌^◌, ◌↔◌, ℕ, suc, List, [], ◌∷◌, length, map, IsTrue, IfOk, OnOk, OnErr, IfNone, IfSome};
ghost use Rattle.pst_base.specs.Heap.{IsPointer};
ghost use Rattle.pst_base.specs.Name.{root_name};
ghost use Rattle.pst_base.specs.Shape.{type_at, root_type, field_kind, IsValid};
ghost use Rattle.pst_order.specs.Places.{rank};
ghost use Rattle.pst_mirror.specs.Potential.{potential};
ghost use Rattle.pst_store_meaning.specs.Arena.{IsIn, IsLive};
ghost use Rattle.pst_store_meaning.specs.Store.{Node, Noted, of_node, width, load_of, AreHeld, AreAllHeld};
ghost use Rattle.pst_store_meaning.specs.Steps.{IsNewNode};
ghost use Rattle.pst_store_arena.specs.Calls.{AreNodes, AreOthers, AreWaiting, IsNodeAdded, IsNullWritten, IsNumberWritten, IsOpenTo, IsPointerTo, IsPointerWritten, IsRepaired, IsWritten, arena_at};

use pst_base::{Name, NoMemory, NodeId, Shape, SlotNo, TypeNo};
use pst_order::{Order, Pos};
use pst_rows::Stamp;
use pst_store_meaning::place::Place;
use std::alloc::Global;

/// Fat nodes, those of them that wait to be split, and the index of the root record's nodes. The positions of places are
/// those of the order that is handed in. (After Driscoll, Sarnak, Sleator and Tarjan.)
pub trait FatNodes: Drop {
    /// The nodes by their numbers.
    ghost nodes: { Self → List Node };

    /// What is noted beside them.
    ghost noted: { Self → Noted };

    /// The root record's first node alone, which lives over the whole place. `NoMemory` where there is no memory for it.
    fn started(alloc: Global, shape: &Shape, at: Place) -> Result<Self, NoMemory>
    where
        Self: Sized,
        requires valid { IsValid shape.now }
        ensures root { IfOk result (λ arena. (n : Node) × (nodes arena ≡ n ∷ []) × IsNewNode shape.now n root_name root_type at) }
        ensures noted { IfOk result (λ arena. noted arena ≡ record { queue = []; roots = 0 ∷ []; seen = 1 }) };

    /// How many nodes there are.
    fn count(&self) -> u64
        ensures { result ≡ length (nodes self.now) };

    /// By how many stamped values in all the nodes exceed half of what their type's capacity is. It goes over all nodes.
    fn potential(&self, shape: &Shape) -> u64
        requires { potential (map (load_of shape.now) (nodes self.now)) < 2 ^ 64 }
        ensures { result ≡ potential (map (load_of shape.now) (nodes self.now)) };

    /// Whether a node waits to be split.
    fn pending(&self) -> bool
        ensures { IsTrue result ↔ ¬ ((noted self.now).queue ≡ []) };

    /// The name of a node's record.
    fn name(&self, id: NodeId) -> Name
        requires { id.0 < length (nodes self.now) }
        ensures { result ≡ of_node (λ n. n.head.name) root_name (nodes self.now) id.0 };

    /// The type of a node's record.
    fn ty(&self, id: NodeId) -> TypeNo
        requires { id.0 < length (nodes self.now) }
        ensures { result ≡ of_node (λ n. n.head.ty) root_type (nodes self.now) id.0 };

    /// The node of a record that lives at a place, found along `later`.
    fn cover<O: Order>(&self, order: &O, shape: &Shape, id: NodeId, at: Pos) -> NodeId
        requires nodes { AreNodes shape.now (O.places order.now) (nodes self.now) }
        requires live { IsLive (arena_at (O.places order.now) (nodes self.now)) id.0 (rank (O.places order.now) at.0) }
        ensures inside { IsIn (arena_at (O.places order.now) (nodes self.now)) result.0 (rank (O.places order.now) at.0) }
        ensures same { (arena_at (O.places order.now) (nodes self.now)).name result.0 ≡ (arena_at (O.places order.now) (nodes self.now)).name id.0 };

    /// The node of the root record that lives at a place, found by the root index.
    fn root<O: Order>(&self, order: &O, shape: &Shape, at: Pos) -> NodeId
        requires nodes { AreNodes shape.now (O.places order.now) (nodes self.now) }
        requires held { AreHeld (arena_at (O.places order.now) (nodes self.now)) (noted self.now) }
        requires live { IsLive (arena_at (O.places order.now) (nodes self.now)) 0 (rank (O.places order.now) at.0) }
        ensures inside { IsIn (arena_at (O.places order.now) (nodes self.now)) result.0 (rank (O.places order.now) at.0) }
        ensures name { (arena_at (O.places order.now) (nodes self.now)).name result.0 ≡ root_name };

    /// The node of the root record that lives at a place, looked for at a node and behind it, and then by the root index.
    fn root_near<O: Order>(&self, order: &O, shape: &Shape, near: NodeId, at: Pos) -> NodeId
        requires nodes { AreNodes shape.now (O.places order.now) (nodes self.now) }
        requires held { AreHeld (arena_at (O.places order.now) (nodes self.now)) (noted self.now) }
        requires live { IsLive (arena_at (O.places order.now) (nodes self.now)) 0 (rank (O.places order.now) at.0) }
        ensures inside { IsIn (arena_at (O.places order.now) (nodes self.now)) result.0 (rank (O.places order.now) at.0) }
        ensures name { (arena_at (O.places order.now) (nodes self.now)).name result.0 ≡ root_name };

    /// Where it is kept what a slot holds at a place: its content is that, and tells no more.
    fn held_at<O: Order>(
        &self,
        order: &O,
        shape: &Shape,
        id: NodeId,
        slot: SlotNo,
        at: Pos,
    ) -> &Stamp
        requires nodes { AreNodes shape.now (O.places order.now) (nodes self.now) }
        requires inside { IsIn (arena_at (O.places order.now) (nodes self.now)) id.0 (rank (O.places order.now) at.0) }
        requires slot { slot.0 < width (type_at shape.now ((arena_at (O.places order.now) (nodes self.now)).ty id.0)) }
        ensures { result.now.content ≡ (arena_at (O.places order.now) (nodes self.now)).chart.holds id.0 slot.0 (rank (O.places order.now) at.0) };

    /// The first inverse slot of a node that holds no entry of another field than this one of node `x`, or None where each
    /// one does.
    fn open_slot<O: Order>(
        &self,
        order: &O,
        shape: &Shape,
        id: NodeId,
        at: Pos,
        x: NodeId,
        field: SlotNo,
    ) -> Option<SlotNo>
        requires nodes { AreNodes shape.now (O.places order.now) (nodes self.now) }
        requires inside { IsIn (arena_at (O.places order.now) (nodes self.now)) id.0 (rank (O.places order.now) at.0) }
        ensures none { IfNone result (AreOthers shape.now (arena_at (O.places order.now) (nodes self.now)) id.0 (rank (O.places order.now) at.0) x.0 field.0) }
        ensures some { IfSome result (λ s. IsOpenTo shape.now (arena_at (O.places order.now) (nodes self.now)) id.0 (rank (O.places order.now) at.0) x.0 field.0 s.0) };

    /// Adds a node for a new record with all fields 0 or null. A refusal changes nothing.
    fn add(&mut self, shape: &Shape, name: Name, ty: TypeNo, at: Place) -> Result<NodeId, NoMemory>
        requires valid { IsValid shape.now }
        requires known { ty.0 < length shape.now }
        ensures noted { noted self.new ≡ noted self.old }
        ensures ok { IfOk result (λ id. IsNodeAdded shape.now (nodes self.old) (nodes self.new) id.0 name ty at) }
        ensures err { OnErr result (nodes self.new ≡ nodes self.old) };

    /// Writes a number over a place, takes its memory first, and lets the node wait where it is above its capacity then. A
    /// refusal changes nothing.
    fn set_number<O: Order>(
        &mut self,
        order: &O,
        shape: &Shape,
        id: NodeId,
        field: SlotNo,
        at: Place,
        n: i64,
    ) -> Result<(), NoMemory>
        requires nodes { AreNodes shape.now (O.places order.now) (nodes self.old) }
        requires waiting { AreWaiting shape.now (nodes self.old) (noted self.old).queue }
        requires inside { IsIn (arena_at (O.places order.now) (nodes self.old)) id.0 (rank (O.places order.now) at.begin.0) }
        requires behind { rank (O.places order.now) at.end.0 ≡ suc (rank (O.places order.now) at.begin.0) }
        requires field { field.0 < (type_at shape.now ((arena_at (O.places order.now) (nodes self.old)).ty id.0)).values }
        ensures set { OnOk result (IsNumberWritten shape.now (O.places order.now) (nodes self.old) (nodes self.new) id.0 field.0 at n) }
        ensures kept { OnOk result (IsWritten shape.now (O.places order.now) (nodes self.new) (noted self.old) (noted self.new)) }
        ensures err { OnErr result ((nodes self.new ≡ nodes self.old) × (noted self.new ≡ noted self.old)) };

    /// Writes null into a field over a place, and takes its memory first. What is above its capacity then waits. A refusal
    /// changes nothing.
    fn set_null<O: Order>(
        &mut self,
        order: &O,
        shape: &Shape,
        id: NodeId,
        field: SlotNo,
        at: Place,
    ) -> Result<(), NoMemory>
        requires nodes { AreNodes shape.now (O.places order.now) (nodes self.old) }
        requires waiting { AreWaiting shape.now (nodes self.old) (noted self.old).queue }
        requires inside { IsIn (arena_at (O.places order.now) (nodes self.old)) id.0 (rank (O.places order.now) at.begin.0) }
        requires behind { rank (O.places order.now) at.end.0 ≡ suc (rank (O.places order.now) at.begin.0) }
        requires field { IsPointer (field_kind (type_at shape.now ((arena_at (O.places order.now) (nodes self.old)).ty id.0)) field.0) }
        ensures set { OnOk result (IsNullWritten shape.now (O.places order.now) (nodes self.old) (nodes self.new) id.0 field.0 at) }
        ensures kept { OnOk result (IsWritten shape.now (O.places order.now) (nodes self.new) (noted self.old) (noted self.new)) }
        ensures err { OnErr result ((nodes self.new ≡ nodes self.old) × (noted self.new ≡ noted self.old)) };

    /// Writes a pointer into a field over a place, by an inverse slot of the target that holds no entry of another field, and
    /// takes its memory first. What is above its capacity then waits. A refusal changes nothing.
    fn set_target<O: Order>(
        &mut self,
        order: &O,
        shape: &Shape,
        id: NodeId,
        field: SlotNo,
        at: Place,
        target: NodeId,
        slot: SlotNo,
    ) -> Result<(), NoMemory>
        requires nodes { AreNodes shape.now (O.places order.now) (nodes self.old) }
        requires waiting { AreWaiting shape.now (nodes self.old) (noted self.old).queue }
        requires inside { IsIn (arena_at (O.places order.now) (nodes self.old)) id.0 (rank (O.places order.now) at.begin.0) }
        requires target { IsIn (arena_at (O.places order.now) (nodes self.old)) target.0 (rank (O.places order.now) at.begin.0) }
        requires behind { rank (O.places order.now) at.end.0 ≡ suc (rank (O.places order.now) at.begin.0) }
        requires field { IsPointerTo shape.now (arena_at (O.places order.now) (nodes self.old)) id.0 field.0 target.0 }
        requires slot { IsOpenTo shape.now (arena_at (O.places order.now) (nodes self.old)) target.0 (rank (O.places order.now) at.begin.0) id.0 field.0 slot.0 }
        ensures set { OnOk result (IsPointerWritten shape.now (O.places order.now) (nodes self.old) (nodes self.new) id.0 field.0 at target.0 slot.0) }
        ensures kept { OnOk result (IsWritten shape.now (O.places order.now) (nodes self.new) (noted self.old) (noted self.new)) }
        ensures err { OnErr result ((nodes self.new ≡ nodes self.old) × (noted self.new ≡ noted self.old)) };

    /// Splits what waits, and then lets the root index hold the root record's nodes that are new. After `NoMemory` some splits
    /// are made, the rest waits, and what is not held yet is held by the next call.
    fn repair<O: Order>(&mut self, order: &O, shape: &Shape) -> Result<(), NoMemory>
        requires nodes { AreNodes shape.now (O.places order.now) (nodes self.old) }
        requires waiting { AreWaiting shape.now (nodes self.old) (noted self.old).queue }
        requires held { AreHeld (arena_at (O.places order.now) (nodes self.old)) (noted self.old) }
        requires first { (arena_at (O.places order.now) (nodes self.old)).lo 0 ≡ 0 }
        ensures repaired { IsRepaired shape.now (O.places order.now) (nodes self.old) (nodes self.new) }
        ensures waiting { AreWaiting shape.now (nodes self.new) (noted self.new).queue }
        ensures held { AreHeld (arena_at (O.places order.now) (nodes self.new)) (noted self.new) }
        ensures rested { OnOk result ((noted self.new).queue ≡ []) }
        ensures all { OnOk result (AreAllHeld (arena_at (O.places order.now) (nodes self.new)) (noted self.new)) };
}
