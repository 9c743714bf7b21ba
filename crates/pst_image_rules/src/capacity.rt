//! How many stamped values and nodes an image may have.

ghost use Rattle.std.specs.Prelude.{◌↔◌, ◌≡◌, ◌^◌, ◌<◌, ◌≤◌, ℕ, IsTrue, length};
ghost use Rattle.pst_base.specs.Shape.{IsValid};
ghost use Rattle.pst_image_rules.specs.Nodes.{node_at};
ghost use Rattle.pst_image_rules.specs.Capacity.{half, excess, bound_of, AreWithinCapacity, IsBounded};

use pst_base::{Counts, Shape};
use pst_image_form::NodePart;

/// Half the capacity of a node: how many pointer elements its type has, and its limit.
fn half_of(shape: &Shape, node: &NodePart) -> usize
    requires valid { IsValid shape.now }
    requires known { node.now.ty.0 < length shape.now }
    ensures half { result ≡ half shape.now node.now }
    ensures few { result < 2 ^ 16 }
{
    match shape.as_slice().get(usize::from(node.ty.0)) {
        Some(ty) => ty.targets.as_slice().len() + usize::from(ty.limit),
        None => 0,
    }
}

/// Whether each node has at most its capacity of stamped values: twice the pointer elements and the limit of its type. It takes time
/// by the number of nodes.
pub fn are_within_capacity(shape: &Shape, nodes: &[NodePart]) -> bool
    requires valid { IsValid shape.now }
    requires known { (i : ℕ) → i < length nodes.now → (node_at nodes.now i).ty.0 < length shape.now }
    ensures { IsTrue result ↔ AreWithinCapacity shape.now nodes.now }
{
    for node in nodes {
        if 2 * half_of(shape, node) < node.stamps.as_slice().len() {
            return false;
        }
    }
    true
}

/// How far a node is above half its capacity.
fn excess_of(shape: &Shape, node: &NodePart) -> u64
    requires valid { IsValid shape.now }
    requires known { node.now.ty.0 < length shape.now }
    ensures { result ≡ excess shape.now node.now }
{
    node.stamps
        .as_slice()
        .len()
        .saturating_sub(half_of(shape, node)) as u64
}

/// Whether there are no more nodes, and no more stamped values above half their capacities, than the records that were made and the
/// writes allow: one for each record, six for each pointer write, two for each value write. It takes time by the number of nodes.
pub fn is_bounded(shape: &Shape, counts: &Counts, nodes: &[NodePart]) -> bool
    requires valid { IsValid shape.now }
    requires known { (i : ℕ) → i < length nodes.now → (node_at nodes.now i).ty.0 < length shape.now }
    requires records { counts.now.records ≤ 2 ^ 50 }
    requires pointer_writes { counts.now.pointer_writes ≤ 2 ^ 50 }
    requires value_writes { counts.now.value_writes ≤ 2 ^ 50 }
    ensures { IsTrue result ↔ IsBounded shape.now counts.now nodes.now }
{
    let bound = counts.records + 6 * counts.pointer_writes + 2 * counts.value_writes;
    let mut total = nodes.len() as u64;
    if bound < total {
        return false;
    }
    for node in nodes {
        let excess = excess_of(shape, node);
        if bound - total < excess {
            return false;
        }
        total += excess;
    }
    true
}
