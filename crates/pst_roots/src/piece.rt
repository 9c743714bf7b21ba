//! A piece of a long list of nodes: a vector that never grows.

use pst_base::{NoMemory, NodeId};
use std::alloc::Global;
use std::marker::Model;

/// How many nodes a piece has room for.
pub const PIECE: usize = 1024;

/// How many nodes a full piece keeps when it is cut in two.
pub const HALF: usize = 512;

/// At most `PIECE` nodes, in memory that was taken when the piece was made.
#[derive(Drop)]
pub struct Piece {
    nodes: Vec<NodeId>,
}

impl Model for Piece {
    ghost use Rattle.std.specs.Prelude.{ℕ, ◌≤◌, List, length, vec_capacity};
    ghost use Rattle.pst_roots.specs.Numbers.{numbers};

    ghost Value = { List ℕ };

    ghost view = { λ p. numbers p.nodes.items };

    ghost invariant = { λ p. (length p.nodes.items ≤ 1024) × (1024 ≤ vec_capacity p.nodes) };
}

impl Piece {
    ghost use Rattle.std.specs.Prelude.{◌≡◌, ◌<◌, ◌≤◌, [], length, get_or, take, drop, insert, IfOk, IfSome};

    /// A piece with no node. `NoMemory` where there is no memory for it.
    ///
    /// # Errors
    /// Where there was no memory.
    pub fn new(alloc: Global) -> Result<Piece, NoMemory>
        ensures { IfOk result (λ piece. piece ≡ []) }
    {
        Ok(Piece {
            nodes: Vec::with_capacity(alloc, PIECE)?,
        })
    }

    /// How many nodes it has.
    #[inline]
    pub fn len(&self) -> usize
        ensures count { result ≡ length self.now }
        ensures most { result ≤ 1024 }
    {
        self.nodes.len()
    }

    /// A node by its index.
    #[inline]
    pub fn get(&self, index: usize) -> NodeId
        requires { index < length self.now }
        ensures { result.0 ≡ get_or self.now index 0 }
    {
        self.nodes[index]
    }

    /// The index of a node, or None where it is not among them.
    pub fn find(&self, id: NodeId) -> Option<usize>
        ensures { IfSome result (λ i. i < length self.now) }
    {
        for (index, node) in self.nodes.iter().enumerate() {
            if *node == id {
                return Some(index);
            }
        }
        None
    }

    /// Puts a node at an index.
    pub fn insert(&mut self, index: usize, id: NodeId)
        requires index { index ≤ length self.old }
        requires room { length self.old < 1024 }
        ensures { self.new ≡ insert self.old index id.0 }
    {
        let _there_is_room = self.nodes.insert(index, id);
    }

    /// Moves the second half of a full piece into an empty one.
    pub fn halve(&mut self, second: &mut Piece)
        requires full { length self.old ≡ 1024 }
        requires empty { second.old ≡ [] }
        ensures first { self.new ≡ take 512 self.old }
        ensures second { second.new ≡ drop 512 self.old }
    {
        let _there_is_room = second.nodes.extend_from_slice(&self.nodes[HALF..]);
        self.nodes.truncate(HALF);
    }
}
