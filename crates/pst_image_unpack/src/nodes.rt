//! The nodes of an image, with their rows.

ghost use Rattle.std.specs.Prelude.{◌≡◌, ◌<◌, ◌^◌, ℕ, IfOk, length, map};
ghost use Rattle.pst_nodes.specs.declared.links.Link.TheVariants.{Out};
ghost use Rattle.pst_repair.specs.Seen.{seen_in, seen_node};
ghost use Rattle.pst_nodes.specs.Arena.{link_at};
ghost use Rattle.pst_image_meaning.specs.Denoted.{link_of as denoted_link, node_of as denoted_node, nodes_of as denoted_nodes};
ghost use Rattle.pst_image_unpack.specs.Listing.{HasFew, AreFew};

use crate::contents::{put_bases, put_stamps};
use pst_base::{NoMemory, NodeId, Shape};
use pst_image_form::NodePart;
use pst_nodes::header::Header;
use pst_nodes::links::Link;
use pst_nodes::node::{Node, Nodes};
use pst_order::Pos;
use pst_rows::{Content, Row, Stamp};
use std::alloc::Global;

/// The next node, by its number plus 1, or None for 0.
fn link_of(number: u64) -> Option<NodeId>
    ensures { result ≡ denoted_link number }
{
    if number == 0 {
        None
    } else {
        Some(NodeId(number - 1))
    }
}

/// A node. The lists are room for its contents, whatever they hold before.
fn node_of(
    alloc: Global,
    shape: &Shape,
    part: &NodePart,
    bases: &mut Vec<Content>,
    stamps: &mut Vec<Stamp>,
) -> Result<Node, NoMemory>
    requires few { HasFew shape.now part.now }
    ensures node { IfOk result (λ node. seen_node node ≡ denoted_node shape.now part.now) }
    ensures out { IfOk result (λ node. node.header.link ≡ Out) }
{
    let ty = &shape.as_slice()[usize::from(part.ty.0)];
    put_bases(ty, part.bases.as_slice(), bases)?;
    put_stamps(ty, part.stamps.as_slice(), stamps)?;
    let row = Row::of_parts(alloc, Pos(part.lo), Pos(part.hi), bases, stamps)?;
    let header = Header::new(part.name, part.ty, link_of(part.later), Link::Out);
    Ok(Node { header, row })
}

/// The nodes, by their numbers. None of them waits to be split.
///
/// # Errors
/// Where there was no memory.
pub fn nodes_of(alloc: Global, shape: &Shape, parts: &[NodePart]) -> Result<Nodes, NoMemory>
    requires few { AreFew shape.now parts.now }
    ensures nodes { IfOk result (λ nodes. seen_in nodes ≡ denoted_nodes shape.now parts.now) }
    ensures out { IfOk result (λ nodes. (i : ℕ) → link_at nodes.list.items i ≡ Out) }
{
    let mut bases = Vec::new(alloc);
    let mut stamps = Vec::new(alloc);
    let mut list = Vec::new(alloc);
    for part in parts {
        list.push(node_of(alloc, shape, part, &mut bases, &mut stamps)?)?;
    }
    Ok(Nodes { list })
}
