//! The chains as a list, by their ends.

ghost use Rattle.std.specs.Prelude.{◌≡◌, ◌^◌, ◌<◌, IfOk, length};
ghost use Rattle.pst_image_rules.specs.Chains.{HaveLives, EndBelow, AreInChains, AreChains};
ghost use Rattle.pst_image_rules.specs.Heads.{AreLinked, AreMarked, IsLastOf};

use crate::links::{later_of, marks};
use pst_base::{NoMemory, NodeId};
use pst_image_form::NodePart;
use std::alloc::Global;

/// A chain by its ends: its head, which no other node leads to, and its last node, which leads to none. They are one where the
/// record has one node.
#[derive(Clone, Copy)]
pub struct Chain {
    pub head: NodeId,
    pub last: NodeId,
}

/// The last node of the chain that goes on from a node.
fn last_of(nodes: &[NodePart], from: usize) -> usize
    requires there { from < length nodes.now }
    requires linked { AreLinked nodes.now (length nodes.now) }
    requires lives { HaveLives nodes.now }
    requires inside { EndBelow (2 ^ 32) nodes.now }
    ensures { IsLastOf nodes.now from result }
{
    let mut node = from;
    let mut later = later_of(nodes, node);
    while later != 0 {
        node = (later - 1) as usize;
        later = later_of(nodes, node);
    }
    node
}

/// The chain of a head.
fn chain_of(nodes: &[NodePart], head: usize) -> Chain
    requires there { head < length nodes.now }
    requires linked { AreLinked nodes.now (length nodes.now) }
    requires lives { HaveLives nodes.now }
    requires inside { EndBelow (2 ^ 32) nodes.now }
    ensures head { result.head.0 ≡ head }
    ensures last { IsLastOf nodes.now head result.last.0 }
{
    Chain {
        head: NodeId(head as u64),
        last: NodeId(last_of(nodes, head) as u64),
    }
}

/// The chains of the nodes that no other one leads to.
fn chains_by(alloc: Global, nodes: &[NodePart], marks: &[bool]) -> Result<Vec<Chain>, NoMemory>
    requires linked { AreLinked nodes.now (length nodes.now) }
    requires lives { HaveLives nodes.now }
    requires inside { EndBelow (2 ^ 32) nodes.now }
    requires marked { AreMarked nodes.now (length nodes.now) marks.now }
    ensures { IfOk result (λ chains. AreChains nodes.now chains.items) }
{
    let mut chains = Vec::new(alloc);
    for i in 0..nodes.len() {
        if !marks[i] {
            chains.push(chain_of(nodes, i))?;
        }
    }
    Ok(chains)
}

/// The chains of nodes that stand in chains, each once, in the order of their heads' numbers, for one who makes the records anew.
/// It takes time by the number of nodes.
///
/// # Errors
/// Where there was no memory.
pub fn chains_of(alloc: Global, nodes: &[NodePart]) -> Result<Vec<Chain>, NoMemory>
    requires chained { AreInChains nodes.now }
    requires lives { HaveLives nodes.now }
    requires inside { EndBelow (2 ^ 32) nodes.now }
    ensures { IfOk result (λ chains. AreChains nodes.now chains.items) }
{
    match marks(alloc, nodes)? {
        Some(marks) => chains_by(alloc, nodes, &marks),
        None => Ok(Vec::new(alloc)),
    }
}
