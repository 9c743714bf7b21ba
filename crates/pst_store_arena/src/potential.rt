//! The potential of the nodes.

ghost use Rattle.std.specs.Prelude.{◌≡◌, ◌<◌, ◌^◌};
ghost use Rattle.pst_repair.specs.Load.{excess, potential_of};

use pst_base::Shape;
use pst_nodes::node::{Node, Nodes};
use pst_repair::load::half;

/// By how many stamped values in all the nodes exceed half of what their type's capacity is.
pub fn potential_of(shape: &Shape, nodes: &Nodes) -> u64
    requires { potential_of shape.now nodes.now.list.items < 2 ^ 64 }
    ensures { result ≡ potential_of shape.now nodes.now.list.items }
{
    let mut sum = 0;
    for node in &nodes.list {
        sum += excess(shape, node);
    }
    sum
}

// By how many stamped values a node exceeds half its capacity, which is 0 for a type that is not there.
fn excess(shape: &Shape, node: &Node) -> u64
    ensures { result ≡ excess shape.now node.now }
{
    let stamped = node.row.stamped();
    let ty = node.header.ty();
    let count = shape.as_slice().len();
    let half = if usize::from(ty.0) < count {
        half(shape, ty)
    } else {
        0
    };
    stamped.saturating_sub(half) as u64
}
