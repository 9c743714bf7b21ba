//! What a store's open run does: new records, writes, and that they are undone.

use crate::inner::Core;
use crate::line_nodes::LineNodes;
use crate::place::{LinePlace, Undo};
use pst_base::{Name, NoMemory, NodeId, SlotNo, TypeNo};
use pst_line_nodes::content::Content;
use pst_versions::StoreFault;

impl<N: LineNodes> Core<N> {
    ghost use Rattle.std.specs.Prelude.{◌≡◌, ◌⊎◌, Some, None, OnOk, OnErr, IfOk, IsSome, IsTrue, true, false, ◌↔◌};
    ghost use Rattle.pst_base.specs.declared.names.Kind.TheVariants.{Int};
    ghost use Rattle.pst_base.specs.Heap.{kind_in, IsPointer};
    ghost use Rattle.pst_versions.specs.State.{HasRoom, Allocated, IsNewType, IsFresh, Unchanged};
    ghost use Rattle.pst_versions.specs.Store.{MayStorePointer, PointerOutcome};
    ghost use Rattle.pst_line.specs.Store.{state_of};
    ghost use Rattle.pst_line.specs.Held.{stored_of};
    ghost use Rattle.pst_line.specs.Entered.{newest_place, HasField, HasEntered, HasNoRoom, IsLinked, IsNumberStored, IsPointerStored, Stays};

    /// Makes a record with all fields 0 or null, in the open run. A refusal changes nothing.
    pub(crate) fn make(&mut self, at: LinePlace, ty: TypeNo, name: Name) -> Result<NodeId, NoMemory>
        requires writable { (state_of (stored_of self.old)).writable at }
        requires known_type { IsNewType (state_of (stored_of self.old)) ty }
        requires fresh { IsFresh (state_of (stored_of self.old)) name }
        requires room { HasRoom (state_of (stored_of self.old)) }
        ensures ok { IfOk result (λ r. Allocated (state_of (stored_of self.old)) at ty name r (state_of (stored_of self.new))) }
        ensures err { OnErr result (self.new ≡ self.old) }
    {
        let stamp = self.stamp();
        let id = self.nodes.make(&self.shape, name, ty, stamp)?;
        self.counts.records += 1;
        Ok(id)
    }

    // Makes room for a write of a field of a record, and enters what the field holds, unless the run has written it before: gives
    // the record's newest node. The store has failed until the write is done.
    fn enter(&mut self, r: NodeId, field: SlotNo) -> Result<NodeId, NoMemory>
        requires open { IsSome self.old.opened }
        requires whole { self.old.failed ≡ false }
        requires live { (state_of (stored_of self.old)).live (newest_place self.old) r }
        requires field { HasField self.old r field.0 }
        ensures failed { self.new.failed ≡ true }
        ensures ok { IfOk result (λ x. HasEntered self.old self.new r.0 field.0 x.0) }
        ensures err { OnErr result (Unchanged (state_of (stored_of self.old)) (state_of (stored_of self.new))) }
    {
        let stamp = self.stamp();
        let found = self.nodes.cover(r, stamp);
        self.failed = true;
        let x = self.nodes.make_room(&self.shape, found, field, stamp)?;
        self.root = self.nodes.cover(self.root, stamp);
        let content = self.nodes.read(x, field, stamp);
        self.undo.note(Undo {
            node: self.nodes.home(x),
            slot: field,
            content,
        })?;
        Ok(x)
    }

    /// Writes a number, in the open run.
    pub(crate) fn write_number(
        &mut self,
        at: LinePlace,
        r: NodeId,
        field: SlotNo,
        n: i64,
    ) -> Result<(), NoMemory>
        requires writable { (state_of (stored_of self.old)).writable at }
        requires live { (state_of (stored_of self.old)).live at r }
        requires field { let s = state_of (stored_of self.old) in kind_in s.shape (s.heap at) (s.name r) field.0 ≡ Some Int }
        requires room { HasRoom (state_of (stored_of self.old)) }
        ensures ok { OnOk result (IsNumberStored self.old at r field.0 n self.new × Stays self.old self.new) }
        ensures err { OnErr result (Unchanged (state_of (stored_of self.old)) (state_of (stored_of self.new))) }
    {
        self.whole();
        let stamp = self.stamp();
        let x = self.enter(r, field)?;
        self.nodes.set(x, field, stamp, Content::Number(n))?;
        self.counts.value_writes += 1;
        self.failed = false;
        Ok(())
    }

    /// Writes null, in the open run.
    pub(crate) fn write_null(
        &mut self,
        at: LinePlace,
        r: NodeId,
        field: SlotNo,
    ) -> Result<(), NoMemory>
        requires writable { (state_of (stored_of self.old)).writable at }
        requires live { (state_of (stored_of self.old)).live at r }
        requires field { let s = state_of (stored_of self.old) in IsPointer (kind_in s.shape (s.heap at) (s.name r) field.0) }
        requires room { HasRoom (state_of (stored_of self.old)) }
        ensures ok { OnOk result (IsPointerStored self.old at r field.0 None self.new × Stays self.old self.new) }
        ensures err { OnErr result (Unchanged (state_of (stored_of self.old)) (state_of (stored_of self.new))) }
    {
        self.whole();
        let stamp = self.stamp();
        let x = self.enter(r, field)?;
        self.nodes.set_null(x, field, stamp)?;
        self.counts.pointer_writes += 1;
        self.failed = false;
        Ok(())
    }

    // Writes a pointer to a record that has room for it.
    fn connect(
        &mut self,
        at: LinePlace,
        r: NodeId,
        field: SlotNo,
        q: NodeId,
    ) -> Result<(), NoMemory>
        requires may { MayStorePointer (state_of (stored_of self.old)) at r field.0 (Some q) }
        requires roomy { ¬ (HasNoRoom self.old at r field.0 q) }
        ensures ok { OnOk result (IsLinked self.old at r field.0 q self.new) }
        ensures err { OnErr result (Unchanged (state_of (stored_of self.old)) (state_of (stored_of self.new))) }
    {
        self.whole();
        let stamp = self.stamp();
        let x = self.enter(r, field)?;
        let z = self.nodes.cover(q, stamp);
        let slot = self.nodes.open_slot(z, x, field).unwrap();
        self.nodes.set_target(x, field, stamp, z, slot)?;
        self.counts.pointer_writes += 1;
        self.failed = false;
        Ok(())
    }

    // Whether a record has room for a pointer from a field of another one, or of its own: an inverse slot of its newest node is
    // free, or is this very field's, which the write overwrites. It takes no memory.
    fn has_room(&self, at: LinePlace, r: NodeId, field: SlotNo, q: NodeId) -> bool
        requires { MayStorePointer (state_of (stored_of self.now)) at r field.0 (Some q) }
        ensures { IsTrue result ↔ ¬ (HasNoRoom self.now at r field.0 q) }
    {
        let stamp = self.stamp();
        let x = self.nodes.cover(r, stamp);
        let z = self.nodes.cover(q, stamp);
        self.nodes.open_slot(z, x, field).is_some()
    }

    // Writes a pointer to a record, in the open run. It is refused, before anything is changed, exactly where the record has no
    // room for a pointer more.
    fn link(&mut self, at: LinePlace, r: NodeId, field: SlotNo, q: NodeId) -> Result<(), StoreFault>
        requires { MayStorePointer (state_of (stored_of self.old)) at r field.0 (Some q) }
        ensures { PointerOutcome (state_of (stored_of self.old)) at r field.0 (Some q) result (state_of (stored_of self.new)) }
    {
        if !self.has_room(at, r, field, q) {
            return Err(StoreFault::InDegree);
        }
        self.connect(at, r, field, q)?;
        Ok(())
    }

    /// Writes a pointer, or null for None, in the open run. It is refused exactly where the target has no room for a pointer
    /// more.
    pub(crate) fn point(
        &mut self,
        at: LinePlace,
        r: NodeId,
        field: SlotNo,
        to: Option<NodeId>,
    ) -> Result<(), StoreFault>
        requires { MayStorePointer (state_of (stored_of self.old)) at r field.0 to }
        ensures { PointerOutcome (state_of (stored_of self.old)) at r field.0 to result (state_of (stored_of self.new)) }
    {
        match to {
            None => {
                self.write_null(at, r, field)?;
                Ok(())
            }
            Some(q) => self.link(at, r, field, q),
        }
    }
}
