//! Renaming the partners of a split node.

ghost use Rattle.std.specs.Prelude.{◌≡◌, ◌≢◌, ℕ, ◌+◌, ◌<◌, ◌≤◌, ◌==◌, List, length, IfSome, IfNone, true, false, if◌then◌else◌};
ghost use Rattle.pst_rows.specs.declared.row.Row.{Row};
ghost use Rattle.pst_order.specs.Places.{rank};
ghost use Rattle.pst_mirror.specs.Mirror.{moved};
ghost use Rattle.pst_rows.specs.Rows.{width_of};
ghost use Rattle.pst_nodes.specs.Arena.{row_at, AreRows, chart, IsSlot};
ghost use Rattle.pst_repair.specs.Load.{is_link};
ghost use Rattle.pst_repair.specs.Steps.{IsRenamable, ArePartnersRenamed, IsPartnerOf, HasNoPartner, AreReplaced, begin_of, to_come, HasSameEdges, KeepsEdgesFrom, IsSegmentRenamed, IsSlotRenamed};

use pst_base::{NodeId, SlotNo};
use pst_nodes::node::Nodes;
use pst_order::{Order, Pos};
use pst_rows::Content;

/// A slot of a node, and what it is to hold.
#[derive(Clone, Copy)]
pub struct Partner {
    pub node: NodeId,
    pub slot: SlotNo,
    pub content: Content,
}

// The node that a number means behind the split.
fn moved_node(x: NodeId, z: NodeId, node: NodeId) -> NodeId
    ensures { result.0 ≡ moved x.0 z.0 node.0 }
{
    if node.0 == x.0 { z } else { node }
}

// The partner of the segment of z's slot that begins at a place and has a content, and what it is to hold.
fn partner_of<O: Order>(
    order: &O,
    nodes: &Nodes,
    x: NodeId,
    z: NodeId,
    slot: SlotNo,
    at: Pos,
    held: Content,
) -> Option<Partner>
    requires rows { AreRows (O.places order.now) nodes.now.list.items }
    requires slot { IsSlot (O.places order.now) nodes.now.list.items z.0 slot.0 (rank (O.places order.now) at.0) }
    requires renamable { IsRenamable (chart (O.places order.now) nodes.now.list.items) x.0 z.0 (begin_of (O.places order.now) nodes.now.list.items z.0) }
    requires held { held ≡ (chart (O.places order.now) nodes.now.list.items).holds z.0 slot.0 (rank (O.places order.now) at.0) }
    ensures some { IfSome result (λ p. IsPartnerOf (O.places order.now) nodes.now.list.items x.0 z.0 slot.0 (rank (O.places order.now) at.0) p) }
    ensures none { IfNone result (HasNoPartner (to_come (O.places order.now) nodes.now.list.items x.0 z.0) z.0 slot.0 (rank (O.places order.now) at.0)) }
{
    match held {
        Content::Target(y) => {
            let node = moved_node(x, z, y);
            Some(Partner {
                node,
                slot: nodes.entry_slot(order, node, at, x, z, slot),
                content: Content::From(z, slot),
            })
        }
        Content::From(y, field) => Some(Partner {
            node: moved_node(x, z, y),
            slot: field,
            content: Content::Target(z),
        }),
        _ => None,
    }
}

// Sets the partner of the segment of z's slot that begins at a place and has a content.
fn rename_segment<O: Order>(
    order: &O,
    nodes: &mut Nodes,
    x: NodeId,
    z: NodeId,
    slot: SlotNo,
    at: Pos,
    held: Content,
)
    requires rows { AreRows (O.places order.now) nodes.old.list.items }
    requires slot { IsSlot (O.places order.now) nodes.old.list.items z.0 slot.0 (rank (O.places order.now) at.0) }
    requires renamable { IsRenamable (chart (O.places order.now) nodes.old.list.items) x.0 z.0 (begin_of (O.places order.now) nodes.old.list.items z.0) }
    requires held { held ≡ (chart (O.places order.now) nodes.old.list.items).holds z.0 slot.0 (rank (O.places order.now) at.0) }
    ensures renamed { IsSegmentRenamed (O.places order.now) nodes.old.list.items nodes.new.list.items x.0 z.0 slot.0 (rank (O.places order.now) at.0) }
    ensures edges { KeepsEdgesFrom (O.places order.now) nodes.old.list.items nodes.new.list.items z.0 slot.0 (rank (O.places order.now) at.0) }
    ensures rows { AreRows (O.places order.now) nodes.new.list.items }
    ensures same { AreReplaced nodes.old.list.items nodes.new.list.items }
{
    if let Some(partner) = partner_of(order, nodes, x, z, slot, at, held) {
        nodes.replace(order, partner.node, partner.slot, at, partner.content);
    }
}

// Sets the partners of all segments of one slot of z.
fn rename_slot<O: Order>(order: &O, nodes: &mut Nodes, x: NodeId, z: NodeId, slot: SlotNo)
    requires rows { AreRows (O.places order.now) nodes.old.list.items }
    requires there { z.0 < length nodes.old.list.items }
    requires slot { (d : Row) → slot.0 < width_of (row_at nodes.old.list.items z.0 d) }
    requires renamable { IsRenamable (chart (O.places order.now) nodes.old.list.items) x.0 z.0 (begin_of (O.places order.now) nodes.old.list.items z.0) }
    ensures renamed { IsSlotRenamed (O.places order.now) nodes.old.list.items nodes.new.list.items x.0 z.0 slot.0 }
    ensures edges { HasSameEdges (O.places order.now) nodes.old.list.items nodes.new.list.items }
    ensures rows { AreRows (O.places order.now) nodes.new.list.items }
    ensures same { AreReplaced nodes.old.list.items nodes.new.list.items }
{
    let mut at = nodes.row(z).lo();
    let end = nodes.row(z).hi();
    while at.0 != end.0 {
        let found = nodes.covering(order, z, slot, at);
        rename_segment(order, nodes, x, z, slot, at, found.content);
        at = found.end;
    }
}

/// Sets the partners of all segments of z's slots, from a first one up to an end: what names x in them names z then.
pub fn rename_partners<O: Order>(
    order: &O,
    nodes: &mut Nodes,
    x: NodeId,
    z: NodeId,
    first: usize,
    end: usize,
)
    requires rows { AreRows (O.places order.now) nodes.old.list.items }
    requires there { z.0 < length nodes.old.list.items }
    requires few { first ≤ end }
    requires slots { (d : Row) → end ≤ width_of (row_at nodes.old.list.items z.0 d) }
    requires renamable { IsRenamable (chart (O.places order.now) nodes.old.list.items) x.0 z.0 (begin_of (O.places order.now) nodes.old.list.items z.0) }
    requires linked { (s m : ℕ) → is_link ((chart (O.places order.now) nodes.old.list.items).holds z.0 s m) ≡ true → (first ≤ s) × (s < end) }
    ensures renamed { ArePartnersRenamed (O.places order.now) nodes.old.list.items nodes.new.list.items x.0 z.0 }
    ensures rows { AreRows (O.places order.now) nodes.new.list.items }
    ensures same { AreReplaced nodes.old.list.items nodes.new.list.items }
{
    for index in first..end {
        let slot = SlotNo(index as u16);
        rename_slot(order, nodes, x, z, slot);
    }
}
