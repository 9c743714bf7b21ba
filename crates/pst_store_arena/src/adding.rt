//! A node for a new record.

ghost use Rattle.std.specs.Prelude.{◌≡◌, ◌<◌, length, IfOk, OnErr};
ghost use Rattle.pst_base.specs.Shape.{IsValid};
ghost use Rattle.pst_store_arena.specs.Kept.{IsRowAdded};

use pst_base::{Name, NoMemory, NodeId, Shape, TypeNo};
use pst_nodes::node::Nodes;
use pst_nodes::slots::type_at;
use pst_rows::Row;
use pst_store_meaning::place::Place;
use std::alloc::Global;

/// Adds a node of a type that lives over a place, with all fields 0 or null. It does not wait. A refusal changes nothing.
///
/// # Errors
/// Where there was no memory.
pub fn new_node(
    alloc: Global,
    shape: &Shape,
    nodes: &mut Nodes,
    name: Name,
    ty: TypeNo,
    at: Place,
) -> Result<NodeId, NoMemory>
    requires valid { IsValid shape.now }
    requires known { ty.0 < length shape.now }
    ensures ok { IfOk result (λ id. IsRowAdded shape.now nodes.old.list.items nodes.new.list.items id.0 name ty at) }
    ensures err { OnErr result (nodes.new.list.items ≡ nodes.old.list.items) }
{
    let row = Row::new(alloc, type_at(shape, ty), at.begin, at.end)?;
    nodes.add(name, ty, row)
}
