//! What a store asks of its nodes.

ghost use Rattle.std.specs.Prelude.{OnOk, OnErr, IfOk, IsOk, IfSome, IfNone, ◌≡◌, ◌<◌, ◌≤◌, ◌^◌, ℕ, Bool, true, false, length, [], List};
ghost use Rattle.pst_base.specs.declared.shape.TypeShape.{TypeShape};
ghost use Rattle.pst_line_nodes.specs.Line.{Covers, IsNewest, IsLine, IsQuiet, potential};
ghost use Rattle.pst_line_nodes.specs.Seen.{Seen};
ghost use Rattle.pst_line_nodes.specs.Nodes.{line_of, AreKept, AreLinked, HasSlot};
ghost use Rattle.pst_line_nodes.specs.Carried.{AreCarried, HasRoomFor, HasFieldSet, HasFieldNulled, HasFieldPointed, HasOpenSlot, HasNoOpenSlot, HasNewRecord, AreSomeLine, MayPoint};

use pst_base::{Name, NoMemory, NodeId, Shape, SlotNo, TypeNo};
use pst_line_nodes::content::{Content, InverseNo, Stamp};
use std::alloc::Global;

/// The nodes of a linear history, numbered from 0. Whether a record is of a version or of the open run is not theirs to know:
/// their clauses hold for each way to tell it.
pub trait LineNodes: Drop {
    /// What is seen of each node.
    ghost seen: { Self → List Seen };

    /// No nodes, and no memory taken.
    fn none(alloc: Global) -> Self
    where
        Self: Sized,
        ensures { seen result ≡ [] };

    /// How many nodes there are.
    fn count(&self) -> u64
        ensures { result ≡ length (seen self.now) };

    /// How many values are stamped in newest nodes. It goes over all nodes.
    fn potential(&self) -> u64
        requires { potential (line_of (λ _. true) (seen self.now)) < 2 ^ 64 }
        ensures { result ≡ potential (line_of (λ _. true) (seen self.now)) };

    /// The name of a node's record.
    fn name(&self, x: NodeId) -> Name
        requires { x.0 < length (seen self.now) }
        ensures { result ≡ (line_of (λ _. true) (seen self.now)).name x.0 };

    /// The type of a node's record.
    fn ty(&self, x: NodeId) -> TypeNo
        requires { x.0 < length (seen self.now) }
        ensures { result ≡ (line_of (λ _. true) (seen self.now)).ty x.0 };

    /// The first node of a node's record.
    fn home(&self, x: NodeId) -> NodeId
        requires { x.0 < length (seen self.now) }
        ensures { result.0 ≡ (line_of (λ _. true) (seen self.now)).home x.0 };

    /// What a field of a node holds at a stamp.
    fn read(&self, x: NodeId, slot: SlotNo, at: Stamp) -> Content
        requires there { x.0 < length (seen self.now) }
        requires slot { HasSlot (seen self.now) x.0 slot.0 }
        ensures { result ≡ (line_of (λ _. true) (seen self.now)).holds x.0 slot.0 at.0 };

    /// The node that covers a stamp, of the record that a node number stands for.
    fn cover(&self, id: NodeId, at: Stamp) -> NodeId
        requires linked { AreLinked (line_of (λ _. true) (seen self.now)) }
        requires there { id.0 < length (seen self.now) }
        requires begun { (line_of (λ _. true) (seen self.now)).first id.0 ≤ at.0 }
        ensures covers { Covers (line_of (λ _. true) (seen self.now)) result.0 at.0 }
        ensures home { (line_of (λ _. true) (seen self.now)).home result.0 ≡ (line_of (λ _. true) (seen self.now)).home id.0 };

    /// Makes room for a write of a field at a stamp, the newest one: gives the node, or its copy where the write would stamp one
    /// value too many. Then all pointers to the copied node are redirected, which may copy more nodes. No heap changes, also
    /// where memory is refused: then some pointers may be left to be redirected.
    fn make_room(
        &mut self,
        shape: &Shape,
        x: NodeId,
        field: SlotNo,
        stamp: Stamp,
    ) -> Result<NodeId, NoMemory>
        requires kept { AreKept shape.now stamp.0 (seen self.old) }
        requires line { (made : ℕ → Bool) × IsLine shape.now stamp.0 (line_of made (seen self.old)) }
        requires quiet { IsQuiet (line_of (λ _. true) (seen self.old)) stamp.0 }
        requires newest { IsNewest (line_of (λ _. true) (seen self.old)) x.0 }
        ensures room { IfOk result (λ z. HasRoomFor shape.now (line_of (λ _. true) (seen self.new)) x.0 field.0 stamp.0 z.0) }
        ensures quiet { OnOk result (IsQuiet (line_of (λ _. true) (seen self.new)) stamp.0) }
        ensures carried { AreCarried shape.now stamp.0 (seen self.old) (seen self.new) }
        ensures kept { AreKept shape.now stamp.0 (seen self.new) };

    /// Writes a field of a node at the newest stamp: replaces the content where the newest segment begins there, and else
    /// stamps one. Where it replaces it takes no memory. A refusal changes nothing.
    fn set(
        &mut self,
        x: NodeId,
        slot: SlotNo,
        stamp: Stamp,
        content: Content,
    ) -> Result<(), NoMemory>
        requires kept { (shape : List TypeShape) × AreKept shape stamp.0 (seen self.old) }
        requires there { x.0 < length (seen self.old) }
        requires slot { HasSlot (seen self.old) x.0 slot.0 }
        ensures ok { OnOk result (HasFieldSet (seen self.old) (seen self.new) x.0 slot.0 stamp.0 content) }
        ensures kept { (shape : List TypeShape) → AreKept shape stamp.0 (seen self.old) → AreKept shape stamp.0 (seen self.new) }
        ensures err { OnErr result (seen self.new ≡ seen self.old) }
        ensures replaces { (line_of (λ _. true) (seen self.old)).since x.0 slot.0 ≡ stamp.0 → IsOk result };

    /// Writes null into a field of a newest node, at the newest stamp. A refusal changes nothing, and where the content is
    /// replaced there is none.
    fn set_null(&mut self, x: NodeId, field: SlotNo, stamp: Stamp) -> Result<(), NoMemory>
        requires line { AreSomeLine stamp.0 (seen self.old) }
        requires newest { IsNewest (line_of (λ _. true) (seen self.old)) x.0 }
        requires field { HasSlot (seen self.old) x.0 field.0 }
        ensures ok { OnOk result (HasFieldNulled (seen self.old) (seen self.new) x.0 field.0 stamp.0) }
        ensures kept { (shape : List TypeShape) → AreKept shape stamp.0 (seen self.old) → AreKept shape stamp.0 (seen self.new) }
        ensures err { OnErr result (seen self.new ≡ seen self.old) }
        ensures replaces { (line_of (λ _. true) (seen self.old)).since x.0 field.0 ≡ stamp.0 → IsOk result };

    /// An inverse slot of a node that is free, or has the entry of this very field. None where each one has the entry of
    /// another field: then as many pointers lead to the record as its limit allows.
    fn open_slot(&self, z: NodeId, x: NodeId, field: SlotNo) -> Option<InverseNo>
        requires newest { IsNewest (line_of (λ _. true) (seen self.now)) z.0 }
        ensures some { IfSome result (λ slot. HasOpenSlot (seen self.now) z.0 x.0 field.0 slot.0) }
        ensures none { IfNone result (HasNoOpenSlot (seen self.now) z.0 x.0 field.0) };

    /// Writes a pointer to a newest node into a field of a newest node, at the newest stamp, and its entry into an inverse
    /// slot. A refusal changes nothing, and where the content is replaced there is none.
    fn set_target(
        &mut self,
        x: NodeId,
        field: SlotNo,
        stamp: Stamp,
        z: NodeId,
        slot: InverseNo,
    ) -> Result<(), NoMemory>
        requires line { MayPoint stamp.0 (seen self.old) z.0 x.0 field.0 slot.0 }
        requires newest { IsNewest (line_of (λ _. true) (seen self.old)) x.0 }
        requires field { HasSlot (seen self.old) x.0 field.0 }
        requires target { IsNewest (line_of (λ _. true) (seen self.old)) z.0 }
        ensures ok { OnOk result (HasFieldPointed (seen self.old) (seen self.new) x.0 field.0 stamp.0 z.0 slot.0) }
        ensures kept { (shape : List TypeShape) → AreKept shape stamp.0 (seen self.old) → AreKept shape stamp.0 (seen self.new) }
        ensures err { OnErr result (seen self.new ≡ seen self.old) }
        ensures replaces { (line_of (λ _. true) (seen self.old)).since x.0 field.0 ≡ stamp.0 → IsOk result };

    /// Adds the node of a new record with default fields. A refusal changes nothing.
    fn make(
        &mut self,
        shape: &Shape,
        name: Name,
        ty: TypeNo,
        stamp: Stamp,
    ) -> Result<NodeId, NoMemory>
        requires known { ty.0 < length shape.now }
        ensures id { IfOk result (λ id. id.0 ≡ length (seen self.old)) }
        ensures made { OnOk result (HasNewRecord shape.now (seen self.old) (seen self.new) name ty stamp.0) }
        ensures kept { AreKept shape.now stamp.0 (seen self.old) → AreKept shape.now stamp.0 (seen self.new) }
        ensures err { OnErr result (seen self.new ≡ seen self.old) };
}
