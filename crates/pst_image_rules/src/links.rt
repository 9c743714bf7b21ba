//! Which node each one leads to.

ghost use Rattle.std.specs.Prelude.{◌↔◌, ◌≡◌, ◌<◌, IsTrue, IfOk, length, option_map};
ghost use Rattle.pst_image_rules.specs.Nodes.{node_at};
ghost use Rattle.pst_image_rules.specs.Chains.{IsSameName, IsNext};
ghost use Rattle.pst_image_rules.specs.Heads.{CanLead, IsMarking};

use pst_base::{Name, NoMemory};
use pst_image_form::NodePart;
use std::alloc::Global;

/// Whether two names are those of one record.
pub fn is_same_name(first: Name, second: Name) -> bool
    ensures { IsTrue result ↔ IsSameName first second }
{
    first.run.0 == second.run.0 && first.ordinal == second.ordinal
}

/// Whether a node can stand behind another one.
fn is_next(node: &NodePart, next: &NodePart) -> bool
    ensures { IsTrue result ↔ IsNext node.now next.now }
{
    is_same_name(node.name, next.name) && next.ty.0 == node.ty.0 && next.lo == node.hi
}

/// Whether a node can lead to the one with a number, which is not marked yet.
fn can_lead(nodes: &[NodePart], marks: &[bool], node: usize, next: usize) -> bool
    requires node { node < length nodes.now }
    requires wide { length marks.now ≡ length nodes.now }
    ensures { IsTrue result ↔ CanLead nodes.now marks.now node next }
{
    next < nodes.len() && !marks[next] && is_next(&nodes[node], &nodes[next])
}

/// The number of the next node of the record plus 1, or 0.
pub fn later_of(nodes: &[NodePart], node: usize) -> u64
    requires { node < length nodes.now }
    ensures { result ≡ (node_at nodes.now node).later }
{
    nodes[node].later
}

/// Marks each node that another one leads to, or gives None where a node leads to none that can stand behind it, or two lead to one.
///
/// # Errors
/// Where there was no memory.
pub fn marks(alloc: Global, nodes: &[NodePart]) -> Result<Option<Vec<bool>>, NoMemory>
    ensures { IfOk result (λ marks. IsMarking nodes.now (option_map (λ m. m.items) marks)) }
{
    let mut marks = vec![in alloc; false; nodes.len()]?;
    for i in 0..nodes.len() {
        let later = later_of(nodes, i);
        if later == 0 {
            continue;
        }
        let next = (later - 1) as usize;
        if !can_lead(nodes, &marks, i, next) {
            return Ok(None);
        }
        marks[next] = true;
    }
    Ok(Some(marks))
}
