//! What a row is made of.

ghost use Rattle.std.specs.Prelude.{◌≡◌, ◌<◌};
ghost use Rattle.pst_rows.specs.Contents.{number, target};
ghost use Rattle.pst_rows.specs.Stamps.{at_place};

use pst_base::{NodeId, SlotNo};
use pst_order::Pos;
use std::marker::Model;

/// What a slot holds at a place.
#[derive(Clone, Copy, PartialEq, Eq)]
pub enum Content {
    /// A value slot's number.
    Number(i64),
    /// A pointer slot leads nowhere.
    Null,
    /// A pointer slot leads to this node.
    Target(NodeId),
    /// No pointer is entered in an inverse slot.
    Free,
    /// An inverse slot has the pointer entered that leads here: its node, and its slot there.
    From(NodeId, SlotNo),
}

/// A stretch of a slot, from a place to another one, without that, and what the slot holds there.
#[derive(Clone, Copy)]
pub struct Segment {
    pub begin: Pos,
    pub end: Pos,
    pub content: Content,
}

/// A content that a slot holds from a place on, up to the slot's next stamp or to the end of the row's life. It takes 16 bytes;
/// contracts see the slot, the place and the content.
#[derive(Clone, Copy)]
pub struct Stamp {
    kept: StampKept,
}

// The cases of a content, each with the slot and the place, which lie beside the tag of the enum and take no more room.
#[derive(Clone, Copy)]
enum StampKept {
    Number(u8, Pos, i64),
    Null(u8, Pos),
    Target(u8, Pos, NodeId),
    Free(u8, Pos),
    From(u8, SlotNo, Pos, NodeId),
}

impl Model for Stamp {
    ghost use Rattle.pst_rows.specs.Stamps.{StampValue};

    ghost Value = { StampValue };

    ghost use Rattle.pst_rows.specs.StampsKept.{stamp_of, stamp_held, stamp_back};

    ghost view = { λ s. stamp_of s.kept };

    ghost inverse = { stamp_held };

    ghost inverse_ok = { λ s _. stamp_back s };
}

impl Stamp {
    /// A content of a slot from a place on. The slot is one of the first 256.
    #[inline]
    pub fn new(slot: SlotNo, place: Pos, content: Content) -> Stamp
        requires { slot.0 < 256 }
        ensures { result ≡ record { slot = slot; place = place; content = content } }
    {
        let own = slot.0 as u8;
        let kept = match content {
            Content::Number(n) => StampKept::Number(own, place, n),
            Content::Null => StampKept::Null(own, place),
            Content::Target(node) => StampKept::Target(own, place, node),
            Content::Free => StampKept::Free(own, place),
            Content::From(node, from) => StampKept::From(own, from, place, node),
        };
        Stamp { kept }
    }

    /// Whose content it is.
    #[inline]
    pub fn slot(&self) -> SlotNo
        ensures value { result ≡ self.now.slot }
        ensures most { result.0 < 256 }
    {
        let own = match self.kept {
            StampKept::Number(own, _, _) => own,
            StampKept::Null(own, _) => own,
            StampKept::Target(own, _, _) => own,
            StampKept::Free(own, _) => own,
            StampKept::From(own, _, _, _) => own,
        };
        SlotNo(u16::from(own))
    }

    /// From where on it is held.
    #[inline]
    pub fn place(&self) -> Pos
        ensures { result ≡ self.now.place }
    {
        match self.kept {
            StampKept::Number(_, place, _) => place,
            StampKept::Null(_, place) => place,
            StampKept::Target(_, place, _) => place,
            StampKept::Free(_, place) => place,
            StampKept::From(_, _, place, _) => place,
        }
    }

    /// Gives it another place from where on it is held.
    #[inline]
    pub(crate) fn set_place(&mut self, place: Pos)
        ensures { self.new ≡ at_place self.old place }
    {
        match &mut self.kept {
            StampKept::Number(_, kept, _) => *kept = place,
            StampKept::Null(_, kept) => *kept = place,
            StampKept::Target(_, kept, _) => *kept = place,
            StampKept::Free(_, kept) => *kept = place,
            StampKept::From(_, _, kept, _) => *kept = place,
        }
    }

    /// The number that is held, or 0 where none is.
    #[inline(always)]
    pub fn number(&self) -> i64
        ensures { result ≡ number self.now.content }
    {
        match self.kept {
            StampKept::Number(_, _, n) => n,
            StampKept::Null(_, _)
            | StampKept::Target(_, _, _)
            | StampKept::Free(_, _)
            | StampKept::From(_, _, _, _) => 0,
        }
    }

    /// The node that is pointed to, if one is.
    #[inline(always)]
    pub fn target(&self) -> Option<NodeId>
        ensures { result ≡ target self.now.content }
    {
        match self.kept {
            StampKept::Target(_, _, node) => Some(node),
            StampKept::Number(_, _, _)
            | StampKept::Null(_, _)
            | StampKept::Free(_, _)
            | StampKept::From(_, _, _, _) => None,
        }
    }

    /// What is held.
    #[inline]
    pub fn content(&self) -> Content
        ensures { result ≡ self.now.content }
    {
        match self.kept {
            StampKept::Number(_, _, n) => Content::Number(n),
            StampKept::Null(_, _) => Content::Null,
            StampKept::Target(_, _, node) => Content::Target(node),
            StampKept::Free(_, _) => Content::Free,
            StampKept::From(_, from, _, node) => Content::From(node, from),
        }
    }
}

impl Default for Stamp {
    fn default() -> Stamp {
        Stamp::new(SlotNo(0), Pos(0), Content::Null)
    }
}
