//! What a node has beside its row.

ghost use Rattle.std.specs.Prelude.{◌≡◌, is_some};
ghost use Rattle.pst_nodes.specs.Header.{later_of, link_of};

use crate::links::Link;
use pst_base::{Name, NodeId, TypeNo};
use std::marker::Model;

/// A link of the queue without the node that comes next.
#[derive(Clone, Copy)]
enum Wait {
    Out,
    Last,
    Before,
}

/// What a node has beside its row: its record and type, the next node of the record, and the link of the queue. An optional
/// number would take 16 bytes, so the numbers of both nodes stand apart from what says whether they count: 32 bytes in all.
#[derive(Drop)]
pub struct Header {
    // The next node of the record, if there is one.
    later: NodeId,
    // The node that comes next in the queue, if one does.
    next: NodeId,
    name: Name,
    ty: TypeNo,
    has_later: bool,
    wait: Wait,
}

impl Model for Header {
    ghost use Rattle.pst_nodes.specs.Header.{HeaderValue, later_of, link_of};

    ghost Value = { HeaderValue };

    ghost view = { λ h. record { name = h.name; ty = h.ty; later = later_of h.has_later h.later; link = link_of h.wait h.next } };
}

// The number of a node that counts for nothing.
const NONE: NodeId = NodeId(0);

// A link in its two parts.
#[inline(always)]
fn link_parts(link: Link) -> (Wait, NodeId)
    ensures { link_of result.0 result.1 ≡ link }
{
    match link {
        Link::Out => (Wait::Out, NONE),
        Link::Last => (Wait::Last, NONE),
        Link::Before(next) => (Wait::Before, next),
    }
}

// An optional node in its two parts.
#[inline(always)]
fn node_parts(node: Option<NodeId>) -> (bool, NodeId)
    ensures { later_of result.0 result.1 ≡ node }
{
    match node {
        None => (false, NONE),
        Some(later) => (true, later),
    }
}

impl Header {
    /// What a node of a record and type has beside its row, with the next node of the record and the link of the queue.
    #[inline(always)]
    pub fn new(name: Name, ty: TypeNo, later: Option<NodeId>, link: Link) -> Header
        ensures { result ≡ record { name = name; ty = ty; later = later; link = link } }
    {
        let (has_later, later) = node_parts(later);
        let (wait, next) = link_parts(link);
        Header {
            later,
            next,
            name,
            ty,
            has_later,
            wait,
        }
    }

    /// The record.
    #[inline(always)]
    pub fn name(&self) -> Name
        ensures { result ≡ self.now.name }
    {
        self.name
    }

    /// The type.
    #[inline(always)]
    pub fn ty(&self) -> TypeNo
        ensures { result ≡ self.now.ty }
    {
        self.ty
    }

    /// The next node of the record.
    #[inline(always)]
    pub fn later(&self) -> Option<NodeId>
        ensures { result ≡ self.now.later }
    {
        if self.has_later {
            Some(self.later)
        } else {
            None
        }
    }

    /// Whether a node of the record comes next.
    #[inline(always)]
    pub fn is_followed(&self) -> bool
        ensures { result ≡ is_some self.now.later }
    {
        self.has_later
    }

    /// The link of the queue.
    #[inline(always)]
    pub fn link(&self) -> Link
        ensures { result ≡ self.now.link }
    {
        match self.wait {
            Wait::Out => Link::Out,
            Wait::Last => Link::Last,
            Wait::Before => Link::Before(self.next),
        }
    }

    /// Sets the next node of the record.
    #[inline(always)]
    pub(crate) fn set_later(&mut self, later: Option<NodeId>)
        ensures { self.new ≡ record { name = self.old.name; ty = self.old.ty; later = later; link = self.old.link } }
    {
        let (has_later, later) = node_parts(later);
        self.has_later = has_later;
        self.later = later;
    }

    /// Sets the link of the queue.
    #[inline(always)]
    pub(crate) fn set_link(&mut self, link: Link)
        ensures { self.new ≡ record { name = self.old.name; ty = self.old.ty; later = self.old.later; link = link } }
    {
        let (wait, next) = link_parts(link);
        self.wait = wait;
        self.next = next;
    }
}
