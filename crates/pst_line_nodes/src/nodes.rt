//! The nodes of a history: reading and writing one field, and the walk to the node that covers a stamp.

ghost use Rattle.std.specs.Prelude.{OnOk, OnErr, IsOk, IfSome, IfNone, Some, slice_get, ◌≡◌, ◌<◌, ◌≤◌, ◌^◌, ℕ, Bool, true, false, length, [], List};
ghost use Rattle.pst_base.specs.Shape.{type_at};
ghost use Rattle.pst_line_nodes.specs.Line.{Covers, is_over, potential};
ghost use Rattle.pst_base.specs.declared.shape.TypeShape.{TypeShape};
ghost use Rattle.pst_line_nodes.specs.Nodes.{line_of, AreKept, AreLinked, HasSlot, IsNext};
ghost use Rattle.pst_line_nodes.specs.Carried.{HasFieldSet};

use crate::content::{Content, Stamp};
use crate::node::Node;
use pst_base::{Name, NoMemory, NodeId, Shape, SlotNo, TypeNo, TypeShape};
use std::alloc::Global;
use std::marker::Model;

/// The nodes, numbered from 0.
#[derive(Drop)]
pub struct Nodes {
    pub(crate) list: Vec<Node>,
}

impl Model for Nodes {
    ghost use Rattle.std.specs.Prelude.{List};
    ghost use Rattle.pst_line_nodes.specs.Seen.{Seen};

    ghost Value = { List Seen };

    ghost view = { λ s. s.list.items };
}

impl Nodes {
    /// No nodes, and no memory taken.
    pub fn new(alloc: Global) -> Nodes
        ensures { result ≡ [] }
    {
        Nodes {
            list: Vec::new(alloc),
        }
    }

    /// How many nodes there are.
    pub fn count(&self) -> u64
        ensures { result ≡ length self.now }
    {
        self.list.len() as u64
    }

    // A node.
    pub(crate) fn node(&self, id: NodeId) -> &Node
        requires { id.0 < length self.now }
        ensures { slice_get self.now id.0 ≡ Some result.now }
    {
        &self.list[id.0 as usize]
    }

    /// The name of a node's record.
    pub fn name(&self, x: NodeId) -> Name
        requires { x.0 < length self.now }
        ensures { result ≡ (line_of (λ _. true) self.now).name x.0 }
    {
        self.node(x).name()
    }

    /// The type of a node's record.
    pub fn ty(&self, x: NodeId) -> TypeNo
        requires { x.0 < length self.now }
        ensures { result ≡ (line_of (λ _. true) self.now).ty x.0 }
    {
        self.node(x).ty()
    }

    /// The first node of a node's record.
    pub fn home(&self, x: NodeId) -> NodeId
        requires { x.0 < length self.now }
        ensures { result.0 ≡ (line_of (λ _. true) self.now).home x.0 }
    {
        self.node(x).home()
    }

    /// How many values are stamped in newest nodes. It goes over all nodes.
    pub fn potential(&self) -> u64
        requires { potential (line_of (λ _. true) self.now) < 2 ^ 64 }
        ensures { result ≡ potential (line_of (λ _. true) self.now) }
    {
        let mut stamped = 0;
        for id in 0..self.count() {
            stamped += self.node(NodeId(id)).newest_stamped();
        }
        stamped
    }

    /// What a field of a node holds at a stamp.
    pub fn read(&self, x: NodeId, slot: SlotNo, at: Stamp) -> Content
        requires there { x.0 < length self.now }
        requires slot { HasSlot self.now x.0 slot.0 }
        ensures { (made : ℕ → Bool) → result ≡ (line_of made self.now).holds x.0 slot.0 at.0 }
    {
        self.node(x).read(usize::from(slot.0), at)
    }

    /// Writes a field of a node at the newest stamp: replaces the content where the newest segment begins there, and else
    /// stamps one. Where it replaces it takes no memory. A refusal changes nothing.
    ///
    /// # Errors
    /// Where there was no memory.
    pub fn set(
        &mut self,
        x: NodeId,
        slot: SlotNo,
        stamp: Stamp,
        content: Content,
    ) -> Result<(), NoMemory>
        requires kept { (shape : List TypeShape) × AreKept shape stamp.0 self.old }
        requires there { x.0 < length self.old }
        requires slot { HasSlot self.old x.0 slot.0 }
        ensures ok { OnOk result (HasFieldSet self.old self.new x.0 slot.0 stamp.0 content) }
        ensures kept { (shape : List TypeShape) → AreKept shape stamp.0 self.old → AreKept shape stamp.0 self.new }
        ensures err { OnErr result (self.new ≡ self.old) }
        ensures replaces { (made : ℕ → Bool) → (line_of made self.old).since x.0 slot.0 ≡ stamp.0 → IsOk result }
    {
        let node = &mut self.list[x.0 as usize];
        node.set(slot, stamp, content)
    }

    /// The node that covers a stamp, of the record that a node number stands for: by the walk along `later`.
    pub fn cover(&self, id: NodeId, at: Stamp) -> NodeId
        requires linked { AreLinked (line_of (λ _. true) self.now) }
        requires there { id.0 < length self.now }
        requires begun { (line_of (λ _. true) self.now).first id.0 ≤ at.0 }
        ensures { (made : ℕ → Bool) → Covers (line_of made self.now) result.0 at.0 × ((line_of made self.now).home result.0 ≡ (line_of made self.now).home id.0) }
    {
        let mut found = id;
        while let Some(next) = self.step(found, at) {
            found = next;
        }
        found
    }

    // The node after a node, where it begins by a stamp.
    fn step(&self, id: NodeId, at: Stamp) -> Option<NodeId>
        requires linked { AreLinked (line_of (λ _. true) self.now) }
        requires there { id.0 < length self.now }
        ensures some { IfSome result (λ next. IsNext self.now id.0 at.0 next.0) }
        ensures none { IfNone result (is_over (line_of (λ _. true) self.now) id.0 at.0 ≡ false) }
    {
        match self.node(id).next() {
            Some(next) => {
                if self.begins(next).0 <= at.0 {
                    Some(next)
                } else {
                    None
                }
            }
            None => None,
        }
    }

    // The first stamp of a node.
    fn begins(&self, id: NodeId) -> Stamp
        requires there { id.0 < length self.now }
        ensures { result.0 ≡ (line_of (λ _. true) self.now).first id.0 }
    {
        self.node(id).begins()
    }
}

/// The type with a number.
pub(crate) fn type_at(shape: &Shape, ty: TypeNo) -> &TypeShape
    requires { ty.0 < length shape.now }
    ensures { result.now ≡ type_at shape.now ty }
{
    &shape.as_slice()[usize::from(ty.0)]
}
