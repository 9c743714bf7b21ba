//! The nodes of the root record in pieces.

ghost use Rattle.std.specs.Prelude.{◌≡◌, ℕ, ◌+◌, ◌-◌, ◌*◌, ◌<◌, ◌≤◌, ◌^◌, [], ◌∷◌, length, get_or, IfOk, OnOk, OnErr, IsTrue};
ghost use Rattle.pst_order.specs.Places.{IsIn};
ghost use Rattle.pst_order.specs.Search.{IsFewMore};
ghost use Rattle.pst_nodes.specs.Arena.{lo_at};
ghost use Rattle.pst_roots.specs.Spots.{IsSpotIn};
ghost use Rattle.pst_roots.specs.Roots.{held_of, spare_of, begins_of, AreRoots, IsLastIndex, IsLastBefore, IsAddedRoot};

use crate::pieces::{Pieces, Spot};
use pst_base::{NoMemory, NodeId};
use pst_nodes::node::Nodes;
use pst_order::{Compare, Counting, Order, Pos};
use std::alloc::Global;

/// The nodes of the root record that are known, in the order of where they begin. The first one is always among them.
#[derive(Drop)]
pub struct RootIndex {
    pieces: Pieces,
    // The index behind which `add` put a node last. The next one mostly comes near it.
    recent: usize,
}

// Where a node begins: place 0 for one that is not there, which is never asked for.
#[inline]
fn begin_of(nodes: &Nodes, id: NodeId) -> Pos
    ensures { result.0 ≡ lo_at nodes.now.list.items id.0 }
{
    let count = nodes.count();
    if id.0 < count {
        return nodes.row(id).lo();
    }
    Pos(0)
}

impl RootIndex {
    /// An index that holds the root record's first node alone. `NoMemory` where there is no memory for it.
    ///
    /// # Errors
    /// Where there was no memory.
    pub fn new(alloc: Global, first: NodeId) -> Result<RootIndex, NoMemory>
        ensures { IfOk result (λ roots. held_of roots ≡ first.0 ∷ []) }
    {
        Ok(RootIndex {
            pieces: Pieces::new(alloc, first)?,
            recent: 0,
        })
    }

    /// The last held node that does not begin after a place: the one that covers it, where all root nodes are held.
    pub fn at<O: Order>(&self, order: &O, nodes: &Nodes, place: Pos) -> NodeId
        requires roots { AreRoots (O.places order.now) nodes.now.list.items (held_of self.now) place.0 }
        requires place { IsIn (O.places order.now) place.0 }
        ensures { IsLastBefore (O.places order.now) nodes.now.list.items (held_of self.now) place.0 result.0 }
    {
        self.at_with(&mut Counting::new(order), nodes, place)
    }

    /// The last held node that does not begin after a place, found by bisection in at most `s` comparisons, where `2 ^ s` is
    /// at most `2 * n + 1` for the `n` nodes held.
    #[inline(always)]
    pub fn at_with<P: Compare>(&self, compare: &mut P, nodes: &Nodes, place: Pos) -> NodeId
        requires roots { AreRoots (P.list compare.old) nodes.now.list.items (held_of self.now) place.0 }
        requires place { IsIn (P.list compare.old) place.0 }
        requires calls { P.calls compare.old ≤ 2 ^ 63 }
        ensures found { IsLastBefore (P.list compare.old) nodes.now.list.items (held_of self.now) place.0 result.0 }
        ensures list { P.list compare.new ≡ P.list compare.old }
        ensures calls { IsFewMore (length (held_of self.now)) (P.calls compare.old) (P.calls compare.new) }
    {
        let last = self.last_before(compare, nodes, place);
        last.node
    }

    /// Makes room for so many nodes more. A refusal changes nothing.
    ///
    /// # Errors
    /// Where there was no memory.
    pub fn reserve(&mut self, n: usize) -> Result<(), NoMemory>
        ensures held { held_of self.new ≡ held_of self.old }
        ensures room { OnOk result (n ≤ spare_of self.new) }
        ensures err { OnErr result (spare_of self.new ≡ spare_of self.old) }
    {
        self.pieces.reserve(n)
    }

    /// Puts a node directly behind the last held one that does not begin after it, in the room that was made. That one is looked
    /// for beside the node that came in before; then it is seen whether it is `near`, where the caller guesses that it is the
    /// one; and else it is found by bisection.
    pub fn add<O: Order>(&mut self, order: &O, nodes: &Nodes, near: NodeId, right: NodeId)
        requires roots { AreRoots (O.places order.now) nodes.now.list.items (held_of self.old) (lo_at nodes.now.list.items right.0) }
        requires place { IsIn (O.places order.now) (lo_at nodes.now.list.items right.0) }
        requires room { 1 ≤ spare_of self.old }
        ensures held { IsAddedRoot (O.places order.now) nodes.now.list.items (held_of self.old) (held_of self.new) right.0 }
        ensures room { spare_of self.old ≤ spare_of self.new + 1 }
    {
        let begin = begin_of(nodes, right);
        let left = self.left_of(order, nodes, near, begin);
        self.pieces.insert_behind(left, right);
        self.recent = left;
    }

    // The index of the last held node that does not begin after a place: looked for beside the node that came in last, and then
    // where the node stands that may be the one.
    fn left_of<O: Order>(&self, order: &O, nodes: &Nodes, near: NodeId, place: Pos) -> usize
        requires roots { AreRoots (O.places order.now) nodes.now.list.items (held_of self.now) place.0 }
        requires place { IsIn (O.places order.now) place.0 }
        ensures { IsLastIndex (O.places order.now) nodes.now.list.items (held_of self.now) place.0 result }
    {
        let behind = self.recent.saturating_add(1);
        if self.is_last(order, nodes, behind, place) {
            return behind;
        }
        if self.is_last(order, nodes, self.recent, place) {
            return self.recent;
        }
        match self.guess(order, nodes, near, place) {
            Some(index) if self.is_last(order, nodes, index, place) => index,
            Some(_) | None => self
                .last_before(&mut Counting::new(order), nodes, place)
                .index,
        }
    }

    // The index of a node, if it stands in the one piece in which the last node can stand that does not begin after a place. Pieces
    // are told apart by their first nodes, which are few, so that most of a bisection is among what was looked at just before.
    fn guess<O: Order>(&self, order: &O, nodes: &Nodes, near: NodeId, place: Pos) -> Option<usize>
        requires roots { AreRoots (O.places order.now) nodes.now.list.items (held_of self.now) place.0 }
        requires place { IsIn (O.places order.now) place.0 }
    {
        let mut piece = 0;
        let mut end = self.pieces.pieces();
        while end.saturating_sub(piece) > 1 {
            let middle = piece + (end - piece) / 2;
            if self.begins_by(order, nodes, middle, place) {
                piece = middle;
            } else {
                end = middle;
            }
        }
        self.pieces.find(piece, near)
    }

    // Whether a piece is there and its first node does not begin after a place.
    #[inline]
    fn begins_by<O: Order>(&self, order: &O, nodes: &Nodes, piece: usize, place: Pos) -> bool
        requires roots { AreRoots (O.places order.now) nodes.now.list.items (held_of self.now) place.0 }
        requires place { IsIn (O.places order.now) place.0 }
    {
        match self.pieces.first(piece) {
            Some(first) => !order.before(place, begin_of(nodes, first.node)),
            None => false,
        }
    }

    // Whether the last held node that does not begin after a place is the one at an index.
    fn is_last<O: Order>(&self, order: &O, nodes: &Nodes, index: usize, place: Pos) -> bool
        requires roots { AreRoots (O.places order.now) nodes.now.list.items (held_of self.now) place.0 }
        requires place { IsIn (O.places order.now) place.0 }
        ensures { IsTrue result → IsLastIndex (O.places order.now) nodes.now.list.items (held_of self.now) place.0 index }
    {
        let count = self.count();
        if index >= count || order.before(place, self.begin_at(nodes, index)) {
            return false;
        }
        index + 1 == count || order.before(place, self.begin_at(nodes, index + 1))
    }

    // Where a held node begins.
    #[inline]
    fn begin_at(&self, nodes: &Nodes, index: usize) -> Pos
        requires { index < length (held_of self.now) }
        ensures { result.0 ≡ get_or (begins_of nodes.now.list.items (held_of self.now)) index 0 }
    {
        begin_of(nodes, self.held_at(index))
    }

    // The last held node that does not begin after a place. Before each comparison it is decided how many of the nodes may be left
    // after it, half as many as before, so that a power of two more than all of them bounds the comparisons; within that, the
    // comparison is made where a piece starts.
    #[inline(always)]
    fn last_before<P: Compare>(&self, compare: &mut P, nodes: &Nodes, place: Pos) -> Spot
        requires roots { AreRoots (P.list compare.old) nodes.now.list.items (held_of self.now) place.0 }
        requires place { IsIn (P.list compare.old) place.0 }
        requires calls { P.calls compare.old ≤ 2 ^ 63 }
        ensures found { IsLastIndex (P.list compare.old) nodes.now.list.items (held_of self.now) place.0 result.index }
        ensures node { IsSpotIn (held_of self.now) result }
        ensures list { P.list compare.new ≡ P.list compare.old }
        ensures calls { IsFewMore (length (held_of self.now)) (P.calls compare.old) (P.calls compare.new) }
    {
        let mut stretch = self.pieces.whole();
        let mut left = stretch.high.ilog2() + 1;
        while stretch.high - stretch.low > 1 {
            left -= 1;
            let cut = self.pieces.halves(stretch, 1 << left);
            if compare.before(place, begin_of(nodes, cut.node)) {
                stretch = cut.first;
            } else {
                stretch = cut.second;
            }
        }
        self.pieces.first_of(stretch)
    }

    // How many nodes are held.
    #[inline]
    fn count(&self) -> usize
        ensures { result ≡ length (held_of self.now) }
    {
        self.pieces.len()
    }

    // A held node by its index.
    #[inline]
    fn held_at(&self, index: usize) -> NodeId
        requires { index < length (held_of self.now) }
        ensures { result.0 ≡ get_or (held_of self.now) index 0 }
    {
        self.pieces.get(index)
    }
}
