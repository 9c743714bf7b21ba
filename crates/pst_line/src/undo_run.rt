//! A run that is given up: each field that it has written gets what it had.

use crate::inner::Core;
use crate::line_nodes::LineNodes;
use crate::place::Undo;
use crate::undo_list::UndoList;
use pst_base::NodeId;
use pst_line_nodes::content::{Content, Stamp};

impl<N: LineNodes> Core<N> {
    ghost use Rattle.std.specs.Prelude.{◌≡◌, None, IsSome, false};
    ghost use Rattle.pst_line.specs.Store.{state_of, Undone};
    ghost use Rattle.pst_line.specs.Held.{stored_of};

    /// Gives up the open run: each field that it has written gets what it had, and its records are of no version. It takes no
    /// memory.
    pub(crate) fn undo(&mut self)
        requires open { IsSome self.old.opened }
        requires whole { self.old.failed ≡ false }
        ensures undone { Undone (state_of (stored_of self.old)) (state_of (stored_of self.new)) }
        ensures closed { self.new.opened ≡ None }
    {
        let stamp = self.stamp();
        take_back(&mut self.nodes, &self.undo, Step::Clear, stamp);
        take_back(&mut self.nodes, &self.undo, Step::Restore, stamp);
        self.undo = UndoList::new(self.undo.allocator());
        self.opened = None;
    }
}

/// An undo goes over the fields that were written twice: pointers are let go first, and then each field gets what it had. So on
/// the way no record has more pointers to it than it had before the run, or after it.
#[derive(Clone, Copy, PartialEq, Eq)]
pub(crate) enum Step {
    Clear,
    Restore,
}

ghost use Rattle.std.specs.Prelude.{◌≡◌, ℕ, Bool, List, [], ◌∷◌, map};
ghost use Rattle.pst_base.specs.declared.shape.TypeShape.{TypeShape};
ghost use Rattle.pst_line.specs.Back.{MayPutBack, IsEntryPutBack, MayTake, HasTaken, step_of};

// Goes over the fields that the run has written.
fn take_back<N: LineNodes>(nodes: &mut N, entries: &UndoList, step: Step, stamp: Stamp)
    requires { MayTake (N.seen nodes.old) stamp.0 (map (step_of step) entries.now) }
    ensures { HasTaken (N.seen nodes.old) (N.seen nodes.new) stamp.0 (map (step_of step) entries.now) }
{
    for number in 0..entries.len() {
        let entry = entry_in(step, entries.from_last(number));
        take_entry(nodes, entry, stamp);
    }
}

// What a step gives a field.
fn entry_in(step: Step, entry: Undo) -> Undo
    ensures { result ≡ step_of step entry }
{
    match (step, entry.content) {
        (Step::Clear, Content::Target(_)) => Undo {
            content: Content::Null,
            ..entry
        },
        _ => entry,
    }
}

// Gives the field of an entry its content.
fn take_entry<N: LineNodes>(nodes: &mut N, entry: Undo, stamp: Stamp)
    requires { MayTake (N.seen nodes.old) stamp.0 (entry ∷ []) }
    ensures { HasTaken (N.seen nodes.old) (N.seen nodes.new) stamp.0 (entry ∷ []) }
{
    let x = nodes.cover(entry.node, stamp);
    put_back(nodes, x, entry, stamp);
}

// Puts back what a field had. Each content replaces one of the same stamp, so it takes no memory.
fn put_back<N: LineNodes>(nodes: &mut N, x: NodeId, entry: Undo, stamp: Stamp)
    requires { (shape : List TypeShape) × (made : ℕ → Bool) × MayPutBack shape made stamp.0 (N.seen nodes.old) x.0 entry }
    ensures { IsEntryPutBack stamp.0 (N.seen nodes.old) (N.seen nodes.new) x.0 entry }
{
    match entry.content {
        Content::Number(_) => nodes.set(x, entry.slot, stamp, entry.content).unwrap(),
        Content::Null => nodes.set_null(x, entry.slot, stamp).unwrap(),
        Content::Target(y) => {
            let z = nodes.cover(y, stamp);
            let slot = nodes.open_slot(z, x, entry.slot).unwrap();
            nodes.set_target(x, entry.slot, stamp, z, slot).unwrap();
        }
    }
}
