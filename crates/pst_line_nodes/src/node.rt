//! Nodes.

ghost use Rattle.std.specs.Prelude.{IfOk, OnOk, OnErr, IsOk, IfSome, IfNone, ◌≡◌, ◌≢◌, ℕ, ◌<◌, ◌≤◌, ◌↔◌, IsTrue, [], None, Some, List, true, false, not, length, get_or, slice_set, map};
ghost use Rattle.std.specs.Option.{option_map};
ghost use Rattle.pst_line_nodes.specs.Seen.{Seen};
ghost use Rattle.pst_line_nodes.specs.Line.{if_newest};
ghost use Rattle.pst_line_nodes.specs.Full.{is_other_entry};
ghost use Rattle.pst_line_nodes.specs.Making.{IsNewNode, AreDefault};
ghost use Rattle.pst_line_nodes.specs.Nodes.{pair_of, entry_of, entry_renamed, entry_without};
ghost use Rattle.pst_line_nodes.specs.Rows.{held, since_in, IsStampAt, IsUnstamped, IsPut, AreRising};

use crate::content::{Content, Entry, InverseNo, Stamp, StampedContent};
use pst_base::{Name, NoMemory, NodeId, SlotNo, TypeNo, TypeShape};
use std::alloc::Global;
use std::marker::Model;
use std::mem;

/// A node: its record, where it begins, the node after it, what its fields hold, and the pointers to it.
#[derive(Drop)]
pub struct Node {
    name: Name,
    ty: TypeNo,
    home: NodeId,
    first: Stamp,
    later: Option<NodeId>,
    base: Vec<Content>,
    stamped: Vec<StampedContent>,
    inverse: Vec<Option<Entry>>,
}

impl Model for Node {
    ghost use Rattle.std.specs.Option.{option_map};
    ghost use Rattle.pst_line_nodes.specs.Seen.{Seen};
    ghost use Rattle.pst_line_nodes.specs.Full.{is_other_entry};
    ghost use Rattle.pst_line_nodes.specs.Making.{IsNewNode, AreDefault};
    ghost use Rattle.pst_line_nodes.specs.Nodes.{pair_of, entry_of, entry_renamed, entry_without};

    ghost Value = { Seen };

    ghost view = { λ n. record { name = n.name; ty = n.ty; home = n.home.0; first = n.first.0; later = option_map (λ i. i.0) n.later; base = n.base.items; stamped = n.stamped.items; inverse = n.inverse.items } };
}

impl Node {
    ghost use Rattle.pst_line_nodes.specs.Rows.{holds, since, base_of, IsRow, IsRowSet};

    /// The first node of a new record, with default fields.
    ///
    /// # Errors
    /// Where there was no memory.
    pub fn new(
        alloc: Global,
        shape: &TypeShape,
        name: Name,
        ty: TypeNo,
        id: NodeId,
        stamp: Stamp,
    ) -> Result<Node, NoMemory>
        ensures { IfOk result (IsNewNode shape.now name ty id.0 stamp.0) }
    {
        Ok(Node {
            name,
            ty,
            home: id,
            first: stamp,
            later: None,
            base: default_contents(alloc, shape)?,
            stamped: Vec::new(alloc),
            inverse: vec![in alloc; None; usize::from(shape.limit)]?,
        })
    }

    /// The record.
    pub fn name(&self) -> Name
        ensures { result ≡ self.now.name }
    {
        self.name
    }

    /// Its type.
    pub fn ty(&self) -> TypeNo
        ensures { result ≡ self.now.ty }
    {
        self.ty
    }

    /// The first node of the record.
    pub fn home(&self) -> NodeId
        ensures { result.0 ≡ self.now.home }
    {
        self.home
    }

    /// The first stamp.
    pub fn begins(&self) -> Stamp
        ensures { result.0 ≡ self.now.first }
    {
        self.first
    }

    /// The node that comes after it.
    pub fn next(&self) -> Option<NodeId>
        ensures { option_map (λ i. i.0) result ≡ self.now.later }
    {
        self.later
    }

    /// How many fields there are.
    pub fn width(&self) -> usize
        ensures { result ≡ length self.now.base }
    {
        self.base.len()
    }

    /// How many inverse slots there are.
    pub fn inverse_slots(&self) -> usize
        ensures { result ≡ length self.now.inverse }
    {
        self.inverse.len()
    }

    /// How many values are stamped.
    pub fn stamped(&self) -> usize
        ensures { result ≡ length self.now.stamped }
    {
        self.stamped.len()
    }

    /// How many values are stamped, if it is the newest node of its record, and else 0.
    pub fn newest_stamped(&self) -> u64
        ensures { result ≡ if_newest self.now.later (length self.now.stamped) }
    {
        match self.later {
            None => self.stamped.len() as u64,
            Some(_) => 0,
        }
    }

    /// What the field with an index holds from the first stamp on.
    pub fn base(&self, slot: usize) -> Content
        requires slot { slot < length self.now.base }
        ensures { result ≡ base_of self.now slot }
    {
        self.base[slot]
    }

    /// The pointer that an inverse slot stands for.
    pub fn entry(&self, slot: InverseNo) -> Option<Entry>
        requires slot { slot.0 < length self.now.inverse }
        ensures { result ≡ get_or self.now.inverse slot.0 None }
    {
        self.inverse[slot.0]
    }

    /// What the field with an index holds at a stamp.
    pub fn read(&self, slot: usize, at: Stamp) -> Content
        requires slot { slot < length self.now.base }
        ensures { result ≡ holds self.now slot at.0 }
    {
        latest(self.stamped.as_slice(), self.base[slot], slot, at)
    }

    /// Writes a field at the newest stamp: replaces the content where the newest segment begins there, and else stamps
    /// one. Where it replaces it takes no memory.
    ///
    /// # Errors
    /// Where there was no memory.
    pub fn set(&mut self, slot: SlotNo, stamp: Stamp, content: Content) -> Result<(), NoMemory>
        requires row { IsRow stamp.0 self.old }
        requires slot { slot.0 < length self.old.base }
        ensures ok { OnOk result (IsRowSet self.old self.new slot.0 stamp.0 content) }
        ensures row { OnOk result (IsRow stamp.0 self.new) }
        ensures err { OnErr result (self.new ≡ self.old) }
        ensures replaces { since self.old slot.0 ≡ stamp.0 → IsOk result }
    {
        if self.first.0 == stamp.0 {
            self.base[slot.0 as usize] = content;
            Ok(())
        } else {
            put(&mut self.stamped, slot, stamp, content)
        }
    }

    /// An inverse slot that is free, or has the entry of this very field. None where each slot has another field's entry:
    /// then the record has as many pointers as its limit.
    pub fn open_slot(&self, x: NodeId, field: SlotNo) -> Option<InverseNo>
        ensures some { IfSome result (λ i. (i.0 < length self.now.inverse) × (is_other_entry x.0 field.0 (entry_of self.now i.0) ≡ false)) }
        ensures none { IfNone result ((i : ℕ) → i < length self.now.inverse → is_other_entry x.0 field.0 (entry_of self.now i) ≡ true) }
    {
        for i in 0..self.inverse.len() {
            if is_open(self.inverse[i], x, field) {
                return Some(InverseNo(i));
            }
        }
        None
    }

    /// Whether a write of a field at a stamp would stamp a value, and there are more than a limit already.
    pub fn is_full(&self, limit: usize, slot: SlotNo, stamp: Stamp) -> bool
        requires row { IsRow stamp.0 self.now }
        ensures { IsTrue result ↔ (limit < length self.now.stamped) × (since self.now slot.0 ≢ stamp.0) }
    {
        self.stamped.len() > limit && stamp_index(self.stamped.as_slice(), slot, stamp).is_none()
    }

    /// The copy of this node, with a number, contents and a first stamp. It comes after this node, and takes the inverse
    /// slots over.
    pub fn hand_over(&mut self, copy: NodeId, stamp: Stamp, base: Vec<Content>) -> Node
        ensures old { self.new ≡ record self.old { later = Some copy.0; inverse = [] } }
        ensures copy { result ≡ record self.old { first = stamp.0; later = None; base = base.items; stamped = [] } }
    {
        let alloc = *self.inverse.allocator();
        let inverse = mem::replace(&mut self.inverse, Vec::new(alloc));
        self.later = Some(copy);
        Node {
            name: self.name,
            ty: self.ty,
            home: self.home,
            first: stamp,
            later: None,
            base,
            stamped: Vec::new(alloc),
            inverse,
        }
    }

    /// Lets the entries of a node's fields be those of its copy.
    pub fn rename(&mut self, x: NodeId, z: NodeId)
        ensures { self.new ≡ record self.old { inverse = map (entry_renamed x.0 z.0) self.old.inverse } }
    {
        rename_all(self.inverse.as_mut_slice(), x, z);
    }

    /// Sets an inverse slot.
    pub fn enter(&mut self, slot: InverseNo, entry: Entry)
        requires { slot.0 < length self.old.inverse }
        ensures { self.new ≡ record self.old { inverse = slice_set self.old.inverse slot.0 (Some entry) } }
    {
        self.inverse[slot.0] = Some(entry);
    }

    /// Frees each inverse slot that has the entry of a field.
    pub fn free(&mut self, x: NodeId, field: SlotNo)
        ensures { self.new ≡ record self.old { inverse = map (entry_without x.0 field.0) self.old.inverse } }
    {
        free_all(self.inverse.as_mut_slice(), x, field);
    }
}

// What the fields of a new record hold.
fn default_contents(alloc: Global, shape: &TypeShape) -> Result<Vec<Content>, NoMemory>
    ensures { IfOk result (λ contents. AreDefault shape.now contents.items) }
{
    let values = usize::from(shape.values);
    let width = values + shape.targets.as_slice().len();
    let mut contents = Vec::new(alloc);
    for slot in 0..width {
        contents.push(if slot < values {
            Content::Number(0)
        } else {
            Content::Null
        })?;
    }
    Ok(contents)
}

// Whether an inverse slot is free, or has the entry of this field.
fn is_open(entry: Option<Entry>, x: NodeId, field: SlotNo) -> bool
    ensures { result ≡ not (is_other_entry x.0 field.0 (pair_of entry)) }
{
    match entry {
        None => true,
        Some(other) => other.node == x && other.slot == field,
    }
}

// Lets the entries of a node's fields be those of its copy.
fn rename_all(entries: &mut [Option<Entry>], x: NodeId, z: NodeId)
    ensures { entries.new ≡ map (entry_renamed x.0 z.0) entries.old }
{
    for entry in entries.iter_mut() {
        *entry = renamed(*entry, x, z);
    }
}

// Frees each slot that has the entry of a field.
fn free_all(entries: &mut [Option<Entry>], x: NodeId, field: SlotNo)
    ensures { entries.new ≡ map (entry_without x.0 field.0) entries.old }
{
    for entry in entries.iter_mut() {
        *entry = freed(*entry, x, field);
    }
}

// An entry, which is that of the copy where it was that of the copied node.
fn renamed(entry: Option<Entry>, x: NodeId, z: NodeId) -> Option<Entry>
    ensures { result ≡ entry_renamed x.0 z.0 entry }
{
    match entry {
        Some(Entry { node, slot }) if node == x => Some(Entry { node: z, slot }),
        other => other,
    }
}

// An entry, unless it is that of a field.
fn freed(entry: Option<Entry>, x: NodeId, field: SlotNo) -> Option<Entry>
    ensures { result ≡ entry_without x.0 field.0 entry }
{
    match entry {
        Some(Entry { node, slot }) if node == x && slot == field => None,
        other => other,
    }
}

// Stamps a content, in the place of one that is stamped there.
fn put(
    stamped: &mut Vec<StampedContent>,
    slot: SlotNo,
    stamp: Stamp,
    content: Content,
) -> Result<(), NoMemory>
    ensures ok { OnOk result (IsPut stamped.old.items stamped.new.items slot.0 stamp.0 content) }
    ensures err { OnErr result (stamped.new.items ≡ stamped.old.items) }
    ensures fails { OnErr result (IsUnstamped stamped.old.items slot.0 stamp.0) }
{
    match stamp_index(stamped.as_slice(), slot, stamp) {
        Some(i) => {
            stamped[i].content = content;
            Ok(())
        }
        None => {
            stamped.push(StampedContent {
                slot,
                from: stamp,
                content,
            })?;
            Ok(())
        }
    }
}

// Where a stamp of this slot and number is.
fn stamp_index(stamped: &[StampedContent], slot: SlotNo, from: Stamp) -> Option<usize>
    ensures some { IfSome result (λ i. IsStampAt stamped.now i slot.0 from.0) }
    ensures none { IfNone result (IsUnstamped stamped.now slot.0 from.0) }
{
    for (i, stamp) in stamped.iter().enumerate() {
        if stamp.slot == slot && stamp.from == from {
            return Some(i);
        }
    }
    None
}

// What a slot holds at a stamp, from its base and these stamps.
fn latest(stamped: &[StampedContent], base: Content, slot: usize, at: Stamp) -> Content
    ensures { result ≡ held stamped.now slot at.0 base }
{
    let mut content = base;
    for stamp in stamped {
        if usize::from(stamp.slot.0) == slot && stamp.from.0 <= at.0 {
            content = stamp.content;
        }
    }
    content
}
