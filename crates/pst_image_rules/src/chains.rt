//! Whether the nodes of each record stand in one chain.

ghost use Rattle.std.specs.Prelude.{◌↔◌, ◌<◌, IsTrue, IfOk, length};
ghost use Rattle.pst_image_rules.specs.Chains.{IsRootName, IsRootNode, IsNamed, AreNamed, HaveLives, AreChained};

use crate::heads::{have_own_names, heads_of};
use crate::links::marks;
use pst_base::{Name, NoMemory};
use pst_image_form::NodePart;
use std::alloc::Global;

/// Whether this is the name of the root record.
fn is_root_name(name: Name) -> bool
    ensures { IsTrue result ↔ IsRootName name }
{
    name.run.0 == 0 && name.ordinal == 0
}

/// Whether this can be the first node.
fn is_root(node: &NodePart) -> bool
    ensures { IsTrue result ↔ IsRootNode node.now }
{
    is_root_name(node.name) && node.ty.0 == 0 && node.lo == 0
}

/// Whether the name of a node is one that it can have.
fn is_named(places: u32, next_run: u32, node: &NodePart) -> bool
    requires some { 0 < next_run }
    requires places { 0 < places }
    ensures { IsTrue result ↔ IsNamed places next_run node.now }
{
    if is_root_name(node.name) {
        return node.later != 0 || node.hi == places - 1;
    }
    node.name.run.0 != 0 && node.ty.0 != 0 && node.name.run.0 < next_run
}

/// Whether the name of each node is one that it can have.
fn are_named(places: u32, next_run: u32, nodes: &[NodePart]) -> bool
    requires some { 0 < next_run }
    requires places { 0 < places }
    ensures { IsTrue result ↔ AreNamed places next_run nodes.now }
{
    for node in nodes {
        if !is_named(places, next_run, node) {
            return false;
        }
    }
    true
}

/// Whether the nodes of each record stand in one chain, and their names are names of records. It takes the time to sort the names.
///
/// # Errors
/// Where there was no memory.
pub fn are_chained(
    alloc: Global,
    places: u32,
    next_run: u32,
    nodes: &[NodePart],
) -> Result<bool, NoMemory>
    requires some { 0 < length nodes.now }
    requires runs { 0 < next_run }
    requires places { 0 < places }
    requires lives { HaveLives nodes.now }
    ensures { IfOk result (λ chained. IsTrue chained ↔ AreChained places next_run nodes.now) }
{
    if !is_root(&nodes[0]) || !are_named(places, next_run, nodes) {
        return Ok(false);
    }
    let Some(marks) = marks(alloc, nodes)? else {
        return Ok(false);
    };
    have_own_names(heads_of(alloc, nodes, &marks)?)
}
