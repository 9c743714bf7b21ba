//! The undo list of a run.

ghost use Rattle.std.specs.Prelude.{◌≡◌, ◌<◌, ◌^◌, Some, [], length, slice_get, OnOk, OnErr};
ghost use Rattle.pst_line.specs.Noted.{with_entry};

use crate::place::Undo;
use indexmap::IndexMap;
use pst_base::{NoMemory, NodeId, SlotNo};
use pst_line_nodes::content::Content;
use std::alloc::Global;
use std::marker::Model;

/// What the fields had that the open run has written: the field that it wrote first of all stands last. However often a field is
/// written, it stands here once.
#[derive(Drop)]
pub(crate) struct UndoList {
    /// By the first node of the record, and the slot, as the bare numbers that are hashed.
    fields: IndexMap<(u64, u16), Content>,
}

impl Model for UndoList {
    ghost use Rattle.std.specs.Prelude.{List, reverse};
    ghost use Rattle.pst_line.specs.declared.place.Undo.{Undo};
    ghost use Rattle.pst_line.specs.Noted.{entries_in};

    ghost Value = { List Undo };

    ghost view = { λ s. reverse (entries_in s.fields.entries) };
}

impl UndoList {
    /// No entries, and no memory taken.
    pub(crate) fn new(alloc: Global) -> UndoList
        ensures { result ≡ [] }
    {
        UndoList {
            fields: IndexMap::new(alloc),
        }
    }

    /// Notes what a field had, unless it is noted already.
    pub(crate) fn note(&mut self, entry: Undo) -> Result<(), NoMemory>
        ensures ok { OnOk result (self.new ≡ with_entry entry self.old) }
        ensures err { OnErr result (self.new ≡ self.old) }
    {
        let field = (entry.node.0, entry.slot.0);
        if !self.fields.contains_key(&field) {
            self.fields.insert(field, entry.content)?;
        }
        Ok(())
    }

    /// How many fields are noted.
    pub(crate) fn len(&self) -> usize
        ensures len { result ≡ length self.now }
        ensures small { result < 2 ^ 63 }
    {
        self.fields.len()
    }

    /// An entry, counted from the newest one, which has number 0.
    pub(crate) fn from_last(&self, number: usize) -> Undo
        requires { number < length self.now }
        ensures { slice_get self.now number ≡ Some result }
    {
        let (field, content) = self.fields.get_index(self.len() - 1 - number).unwrap();
        Undo {
            node: NodeId(field.0),
            slot: SlotNo(field.1),
            content: *content,
        }
    }

    /// The memory that the entries are in.
    pub(crate) fn allocator(&self) -> Global {
        *self.fields.allocator()
    }
}
