//! The copy of a full node.

ghost use Rattle.std.specs.Prelude.{OnOk, OnErr, IfOk, ◌≡◌, ◌≢◌, ◌<◌, ◌≤◌, ℕ, Bool, true, List, [], ◌∷◌, ◌++◌, length, get_or, slice_get, slice_set, Some, None};
ghost use Rattle.pst_base.specs.declared.shape.TypeShape.{TypeShape};
ghost use Rattle.pst_line_nodes.specs.declared.content.Content.TheVariants.{Null};
ghost use Rattle.pst_line_nodes.specs.Contents.{Target};
ghost use Rattle.pst_line_nodes.specs.Seen.{Seen};
ghost use Rattle.pst_line_nodes.specs.Line.{IsNewest, newest};
ghost use Rattle.pst_line_nodes.specs.Changes.{redirected};
ghost use Rattle.pst_line_nodes.specs.Rows.{base_of};
ghost use Rattle.pst_line_nodes.specs.Nodes.{line_of, AreKept};
ghost use Rattle.pst_line_nodes.specs.Carried.{HasNodeCopied, AreSomeLine};
ghost use Rattle.pst_line_nodes.specs.Copying.{AreContents, IsHandedOver, AreRenamed, IsTargetBelow, node_at};

use crate::content::{Content, Stamp};
use crate::node::Node;
use crate::nodes::Nodes;
use pst_base::{NoMemory, NodeId};

impl Nodes {
    /// Copies a newest node that began before a stamp, the newest one. The copy is the next node, begins at the stamp, has
    /// the contents in force with each pointer redirected, and the entries. A refusal changes nothing.
    ///
    /// # Errors
    /// Where there was no memory.
    pub fn copy(&mut self, x: NodeId, stamp: Stamp) -> Result<(), NoMemory>
        requires line { AreSomeLine stamp.0 self.old }
        requires newest { IsNewest (line_of (λ _. true) self.old) x.0 }
        requires before { (line_of (λ _. true) self.old).first x.0 < stamp.0 }
        ensures copied { OnOk result (HasNodeCopied self.old self.new x.0 stamp.0) }
        ensures kept { (shape : List TypeShape) → AreKept shape stamp.0 self.old → AreKept shape stamp.0 self.new }
        ensures err { OnErr result (self.new ≡ self.old) }
    {
        let z = NodeId(self.count());
        let contents = self.contents(x, z, stamp)?;
        self.grow(x, z, stamp, contents)?;
        self.rename_partners(x, z);
        Ok(())
    }

    // What the fields of the copy z of a node are to hold at a stamp.
    fn contents(&self, x: NodeId, z: NodeId, stamp: Stamp) -> Result<Vec<Content>, NoMemory>
        requires there { x.0 < length self.now }
        requires targets { (g y : ℕ) → (line_of (λ _. true) self.now).holds x.0 g stamp.0 ≡ Target y → y < length self.now }
        ensures { IfOk result (λ contents. AreContents self.now x.0 z.0 stamp.0 contents.items) }
    {
        let mut contents = Vec::new(*self.list.allocator());
        for slot in 0..self.node(x).width() {
            let content = self.node(x).read(slot, stamp);
            contents.push(self.redirected(content, x, z))?;
        }
        Ok(contents)
    }

    // A content of the node x as its copy z has it.
    fn redirected(&self, content: Content, x: NodeId, z: NodeId) -> Content
        requires { (y : ℕ) → content ≡ Target y → y < length self.now }
        ensures { result ≡ redirected (line_of (λ _. true) self.now) x.0 z.0 content }
    {
        match content {
            Content::Target(y) if y == x => Content::Target(z),
            Content::Target(y) => Content::Target(self.newest(y)),
            Content::Number(_) | Content::Null => content,
        }
    }

    // The node that a newest pointer to a node is to hold: the node, or its copy.
    pub(crate) fn newest(&self, y: NodeId) -> NodeId
        requires { y.0 < length self.now }
        ensures { result.0 ≡ newest (line_of (λ _. true) self.now) y.0 }
    {
        match self.node(y).next() {
            Some(z) => z,
            None => y,
        }
    }

    // Adds the copy z of the node x, which takes its inverse slots over. A refusal changes nothing.
    fn grow(
        &mut self,
        x: NodeId,
        z: NodeId,
        stamp: Stamp,
        contents: Vec<Content>,
    ) -> Result<(), NoMemory>
        requires there { x.0 < length self.old }
        ensures ok { OnOk result (IsHandedOver self.old self.new x.0 z.0 stamp.0 contents.items) }
        ensures err { OnErr result (self.new ≡ self.old) }
    {
        self.list.reserve(1)?;
        let node = &mut self.list[x.0 as usize];
        let copy = node.hand_over(z, stamp, contents);
        self.list.push_reserved(copy);
        Ok(())
    }

    // Lets the entries of x in the nodes that its copy z holds be entries of z.
    fn rename_partners(&mut self, x: NodeId, z: NodeId)
        requires there { z.0 < length self.old }
        requires targets { (g y : ℕ) → base_of (node_at self.old z.0) g ≡ Target y → y < length self.old }
        requires apart { z.0 ≢ x.0 }
        ensures { AreRenamed self.old self.new x.0 z.0 (IsTargetBelow (node_at self.old z.0) (length (node_at self.old z.0).base)) }
    {
        for slot in 0..self.node(z).width() {
            let content = self.node(z).base(slot);
            self.rename_partner(content, x, z);
        }
    }

    // Lets the entries of x in the node that a content holds be entries of its copy z.
    fn rename_partner(&mut self, content: Content, x: NodeId, z: NodeId)
        requires { (y : ℕ) → content ≡ Target y → y < length self.old }
        ensures { AreRenamed self.old self.new x.0 z.0 (λ i. content ≡ Target i) }
    {
        if let Content::Target(y) = content {
            let node = &mut self.list[y.0 as usize];
            node.rename(x, z);
        }
    }
}
