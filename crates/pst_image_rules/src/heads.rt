//! The nodes that chains begin with.

ghost use Rattle.std.specs.Prelude.{◌↔◌, ◌≡◌, ◌<◌, IsTrue, IfOk, length};
ghost use Rattle.pst_image_rules.specs.Heads.{head_at as head, AreMarked, AreHeads, HaveOwnNames, IsApart, AreNeighboursApart};

use crate::links::is_same_name;
use pst_base::{Name, NoMemory};
use pst_image_form::NodePart;
use std::alloc::Global;

/// A head: a node that no other one leads to, by the name of its record and its number. Heads are ordered by name, and those of
/// one name by number.
#[derive(Clone, Copy, PartialEq, Eq, PartialOrd, Ord)]
pub struct Head {
    pub name: Name,
    pub node: usize,
}

/// A node as a head.
fn head_at(nodes: &[NodePart], node: usize) -> Head
    requires { node < length nodes.now }
    ensures { result ≡ head nodes.now node }
{
    Head {
        name: nodes[node].name,
        node,
    }
}

/// The nodes that no other one leads to, by their names and numbers.
///
/// # Errors
/// Where there was no memory.
pub fn heads_of(alloc: Global, nodes: &[NodePart], marks: &[bool]) -> Result<Vec<Head>, NoMemory>
    requires { AreMarked nodes.now (length nodes.now) marks.now }
    ensures { IfOk result (λ heads. AreHeads nodes.now marks.now (length nodes.now) heads.items) }
{
    let mut heads = Vec::new(alloc);
    for i in 0..nodes.len() {
        if !marks[i] {
            heads.push(head_at(nodes, i))?;
        }
    }
    Ok(heads)
}

/// Whether two heads are of different names, or one.
fn is_apart(first: Head, second: Head) -> bool
    ensures { IsTrue result ↔ IsApart first second }
{
    !is_same_name(first.name, second.name) || first.node == second.node
}

/// Whether no two neighbours are of one name.
fn are_neighbours_apart(heads: &[Head]) -> bool
    ensures { IsTrue result ↔ AreNeighboursApart heads.now }
{
    for i in 1..heads.len() {
        if !is_apart(heads[i - 1], heads[i]) {
            return false;
        }
    }
    true
}

/// Whether no two heads are of one name: sorted, those of one name stand side by side.
///
/// # Errors
/// Where there was no memory.
pub fn have_own_names(mut heads: Vec<Head>) -> Result<bool, NoMemory>
    ensures { IfOk result (λ own. IsTrue own ↔ HaveOwnNames heads.items) }
{
    heads.sort()?;
    Ok(are_neighbours_apart(&heads))
}
