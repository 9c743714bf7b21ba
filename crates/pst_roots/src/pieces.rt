//! A long list of nodes in pieces, so that a node put into it moves the nodes of one piece only.

ghost use Rattle.std.specs.Prelude.{◌≡◌, suc, ◌+◌, ◌<◌, ◌≤◌, ◌^◌, ◌++◌, [], length, get_or, map, take, drop, replicate, IfOk, All};
ghost use Rattle.std.specs.List.Sorted.{IsNonDecreasing};
ghost use Rattle.std.specs.List.{concat};
ghost use Rattle.pst_roots.specs.Pieces.{AreCut, IsStartBefore, IsPieceAt, FallsInto, halved};

use crate::piece::{HALF, PIECE, Piece};
use pst_base::{NoMemory, NodeId};
use std::alloc::{AllocError, Global};
use std::marker::Model;

/// The most pieces, far more than there is memory for: the count of the nodes fits a `usize`.
const MOST_PIECES: usize = 1 << 48;

/// A node of a list, and its index.
#[derive(Clone, Copy)]
pub struct Spot {
    pub index: usize,
    pub node: NodeId,
}

/// Nodes of a list from an index up to another one, and the pieces that they stand in: the one of the first node, and up to which
/// piece.
#[derive(Clone, Copy)]
pub struct Stretch {
    pub low: usize,
    pub high: usize,
    pub piece: usize,
    pub end: usize,
}

/// A stretch in two, and the first node of the second half.
#[derive(Clone, Copy)]
pub struct Halves {
    pub first: Stretch,
    pub second: Stretch,
    pub node: NodeId,
}

/// An index at which a stretch is cut in two, and the piece that it falls into.
#[derive(Clone, Copy)]
pub struct Cut {
    pub index: usize,
    pub piece: usize,
}

/// Nodes in an order, in pieces. Each piece has a node, and at most `PIECE`. Empty pieces are kept for those to come.
#[derive(Drop)]
pub struct Pieces {
    alloc: Global,
    pieces: Vec<Piece>,
    starts: Vec<usize>,
    pool: Vec<Piece>,
    count: usize,
}

impl Model for Pieces {
    ghost use Rattle.std.specs.Prelude.{◌≡◌, length};
    ghost use Rattle.std.specs.List.{concat};
    ghost use Rattle.pst_roots.specs.Pieces.{Held, ArePieces};

    ghost Value = { Held };

    ghost view = { λ s. record { nodes = concat s.pieces.items; spare = length s.pool.items; starts = s.starts.items } };

    ghost invariant = { λ s. ArePieces s.pieces s.starts s.pool s.count };
}

impl Pieces {
    ghost use Rattle.std.specs.Prelude.{◌≡◌, suc, ◌+◌, ◌-◌, ◌*◌, ◌<◌, ◌≤◌, [], ◌∷◌, length, get_or, insert, IfOk, IfSome, OnOk, OnErr};
    ghost use Rattle.pst_roots.specs.Spots.{IsSpotIn};
    ghost use Rattle.pst_roots.specs.Stretches.{IsStretch, IsCut, AreHalvesOf};

    /// The list of one node. `NoMemory` where there is no memory for it.
    ///
    /// # Errors
    /// Where there was no memory.
    pub fn new(alloc: Global, first: NodeId) -> Result<Pieces, NoMemory>
        ensures { IfOk result (λ list. list.nodes ≡ first.0 ∷ []) }
    {
        let mut piece = Piece::new(alloc)?;
        piece.insert(0, first);
        let mut pieces = Vec::new(alloc);
        pieces.push(piece)?;
        let mut starts = Vec::new(alloc);
        starts.push(0)?;
        Ok(Pieces {
            alloc,
            pieces,
            starts,
            pool: Vec::new(alloc),
            count: 1,
        })
    }

    /// How many nodes there are.
    #[inline]
    pub fn len(&self) -> usize
        ensures { result ≡ length self.now.nodes }
    {
        self.count
    }

    /// A node by its index: a search for the piece among the starts of the pieces, and a look into it.
    #[inline]
    pub fn get(&self, index: usize) -> NodeId
        requires { index < length self.now.nodes }
        ensures { result.0 ≡ get_or self.now.nodes index 0 }
    {
        let piece = piece_at(&self.starts, index);
        self.pieces[piece].get(index - self.starts[piece])
    }

    /// All nodes.
    #[inline]
    pub fn whole(&self) -> Stretch
        requires { 0 < length self.now.nodes }
        ensures stretch { IsStretch self.now result }
        ensures low { result.low ≡ 0 }
        ensures high { result.high ≡ length self.now.nodes }
    {
        Stretch {
            low: 0,
            high: self.count,
            piece: 0,
            end: self.pieces.len(),
        }
    }

    /// A stretch in two, with at most so many nodes in each half.
    #[inline]
    pub fn halves(&self, stretch: Stretch, most: usize) -> Halves
        requires stretch { IsStretch self.now stretch }
        requires some { stretch.low + 1 < stretch.high }
        requires most { stretch.high - stretch.low ≤ 2 * most }
        ensures { AreHalvesOf self.now stretch most result }
    {
        let Cut { index, piece } = self.cut_of(stretch, most);
        let start = self.starts[piece];
        let end = if start < index { piece + 1 } else { piece };
        Halves {
            first: Stretch {
                high: index,
                end,
                ..stretch
            },
            second: Stretch {
                low: index,
                piece,
                ..stretch
            },
            node: self.pieces[piece].get(index - start),
        }
    }

    // Where a stretch is cut: where the middle one of its pieces starts, if that leaves few enough nodes on both sides, since what
    // stands there is looked at by most searches, and its piece is known; and else in its middle.
    #[inline]
    fn cut_of(&self, stretch: Stretch, most: usize) -> Cut
        requires stretch { IsStretch self.now stretch }
        requires some { stretch.low + 1 < stretch.high }
        requires most { stretch.high - stretch.low ≤ 2 * most }
        ensures { IsCut self.now stretch most result }
    {
        let Stretch {
            low,
            high,
            piece,
            end,
        } = stretch;
        let middle = low + (high - low) / 2;
        if end - piece == 1 {
            return Cut {
                index: middle,
                piece,
            };
        }
        let piece = piece + (end - piece) / 2;
        let start = self.starts[piece];
        if start - low <= most && high - start <= most {
            return Cut {
                index: start,
                piece,
            };
        }
        Cut {
            index: middle,
            piece: piece_at(&self.starts, middle),
        }
    }

    /// The first node of a stretch.
    #[inline]
    pub fn first_of(&self, stretch: Stretch) -> Spot
        requires { IsStretch self.now stretch }
        ensures index { result.index ≡ stretch.low }
        ensures node { IsSpotIn self.now.nodes result }
    {
        let index = stretch.low;
        let start = self.starts[stretch.piece];
        let node = self.pieces[stretch.piece].get(index - start);
        Spot { index, node }
    }

    /// How many pieces there are.
    #[inline]
    pub fn pieces(&self) -> usize {
        self.pieces.len()
    }

    /// The first node of a piece, or None where there is no such piece.
    #[inline]
    pub fn first(&self, piece: usize) -> Option<Spot>
        ensures { IfSome result (IsSpotIn self.now.nodes) }
    {
        if piece >= self.pieces.len() {
            return None;
        }
        let index = self.starts[piece];
        let node = self.pieces[piece].get(0);
        Some(Spot { index, node })
    }

    /// The index of a node, looked for in one piece.
    pub fn find(&self, piece: usize, id: NodeId) -> Option<usize> {
        if piece >= self.pieces.len() {
            return None;
        }
        let offset = self.pieces[piece].find(id)?;
        Some(self.starts[piece].saturating_add(offset))
    }

    /// Makes room for so many nodes more, wherever they come. A refusal changes nothing.
    ///
    /// # Errors
    /// Where there was no memory.
    pub fn reserve(&mut self, n: usize) -> Result<(), NoMemory>
        ensures nodes { self.new.nodes ≡ self.old.nodes }
        ensures room { OnOk result (n ≤ self.new.spare) }
        ensures err { OnErr result (self.new.spare ≡ self.old.spare) }
    {
        let spare = self.pool.len();
        if n <= spare {
            return Ok(());
        }
        if self.pieces.len() > MOST_PIECES || n > MOST_PIECES - self.pieces.len() {
            return Err(AllocError);
        }
        self.pieces.reserve(n)?;
        self.starts.reserve(n)?;
        let mut more = empty_pieces(self.alloc, n - spare)?;
        self.pool.append(&mut more)
    }

    /// Puts a node directly behind the one at an index. It takes a piece from those that were made, where the node comes into
    /// a full one.
    pub fn insert_behind(&mut self, index: usize, id: NodeId)
        requires index { index < length self.old.nodes }
        requires room { 1 ≤ self.old.spare }
        ensures nodes { self.new.nodes ≡ insert self.old.nodes (suc index) id.0 }
        ensures room { self.old.spare ≤ self.new.spare + 1 }
    {
        let at = piece_with_room(&mut self.pieces, &mut self.starts, &mut self.pool, index);
        let behind = index - self.starts[at] + 1;
        let piece = &mut self.pieces[at];
        piece.insert(behind, id);
        raise_from(&mut self.starts, at + 1);
        self.count += 1;
    }
}

// The piece that an index falls into: the last one that does not start behind it.
#[inline]
fn piece_at(starts: &[usize], index: usize) -> usize
    requires first { IsStartBefore starts.now index }
    requires rising { IsNonDecreasing starts.now }
    ensures { IsPieceAt starts.now index result }
{
    starts.partition_point(|start| *start <= index) - 1
}

// The piece that an index falls into, with room for one node more: a full piece is cut in two.
fn piece_with_room(
    pieces: &mut Vec<Piece>,
    starts: &mut Vec<usize>,
    pool: &mut Vec<Piece>,
    index: usize,
) -> usize
    requires cut { AreCut pieces.old starts.old pool.old }
    requires index { index < length (concat pieces.old.items) }
    requires spare { 1 ≤ length pool.old.items }
    ensures cut { AreCut pieces.new starts.new pool.new }
    ensures nodes { concat pieces.new.items ≡ concat pieces.old.items }
    ensures spare { length pool.old.items ≤ length pool.new.items + 1 }
    ensures falls { FallsInto pieces.new.items starts.new.items index result }
    ensures room { length (get_or pieces.new.items result []) < 1024 }
{
    let at = piece_at(starts, index);
    if pieces[at].len() < PIECE {
        return at;
    }
    cut_in_two(pieces, starts, pool, at);
    if index < starts[at + 1] { at } else { at + 1 }
}

// Cuts a full piece in two, with an empty piece of the pool for its second half.
fn cut_in_two(pieces: &mut Vec<Piece>, starts: &mut Vec<usize>, pool: &mut Vec<Piece>, at: usize)
    requires cut { AreCut pieces.old starts.old pool.old }
    requires at { at < length pieces.old.items }
    requires full { length (get_or pieces.old.items at []) ≡ 1024 }
    requires spare { 1 ≤ length pool.old.items }
    ensures cut { AreCut pieces.new starts.new pool.new }
    ensures pieces { pieces.new.items ≡ halved pieces.old.items at }
    ensures spare { length pool.old.items ≡ length pool.new.items + 1 }
{
    let mut second = pool.pop().unwrap();
    let piece = &mut pieces[at];
    piece.halve(&mut second);
    let start = starts[at] + HALF;
    let _pieces_have_room = pieces.insert(at + 1, second);
    let _starts_have_room = starts.insert(at + 1, start);
}

// Each start from an index on is one higher.
fn raise_from(starts: &mut [usize], from: usize)
    requires from { from ≤ length starts.old }
    requires low { All (λ start. start < 2 ^ 63) starts.old }
    ensures { starts.new ≡ take from starts.old ++ map suc (drop from starts.old) }
{
    raise(&mut starts[from..]);
}

// Each start is one higher.
fn raise(starts: &mut [usize])
    requires { All (λ start. start < 2 ^ 63) starts.old }
    ensures { starts.new ≡ map suc starts.old }
{
    for start in starts.iter_mut() {
        *start += 1;
    }
}

// So many empty pieces.
fn empty_pieces(alloc: Global, n: usize) -> Result<Vec<Piece>, NoMemory>
    ensures { IfOk result (λ pieces. pieces.items ≡ replicate n []) }
{
    let mut pieces = Vec::with_capacity(alloc, n)?;
    for _ in 0..n {
        pieces.push(Piece::new(alloc)?)?;
    }
    Ok(pieces)
}
