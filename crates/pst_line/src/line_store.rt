//! The store, and what is asked of it alone.

use crate::calls::LineCalls;
use crate::inner::Core;
use crate::place::LinePlace;
use pst_base::{Counts, NoMemory, RunNo, Shape, VersionNo};
use pst_line_nodes::content::Stamp;
use pst_line_nodes::nodes::Nodes;
use std::alloc::Global;
use std::marker::Model;

/// The store of a linear history: empty, or started with version 0. It is a heap at many places (`HeapAt`), of which only the
/// open run's is written (`LineCalls`). Each write copies the nodes that have no room for it, so that there are never more nodes
/// and stamped values than one for each record that was made and for each write (node copying, after Driscoll, Sarnak, Sleator
/// and Tarjan).
#[derive(Drop)]
pub struct LineStore {
    pub(crate) core: Option<Core<Nodes>>,
}

impl Model for LineStore {
    ghost use Rattle.std.specs.Prelude.{Option};
    ghost use Rattle.pst_line.specs.Held.{Held};

    ghost Value = { Option Held };

    ghost view = { λ s. s.core };
}

impl LineStore {
    ghost use Rattle.std.specs.Prelude.{◌≡◌, IfSome, None};
    ghost use Rattle.pst_line.specs.Held.{IsHeld};

    /// A store with no version and no node. It takes no memory.
    pub fn empty() -> LineStore
        ensures { result ≡ None }
    {
        LineStore { core: None }
    }

    // What is known of every store.
    pub(crate) fn whole(&self)
        ensures { IfSome self.now IsHeld }
    {
        if let Some(core) = &self.core {
            core.whole();
        }
    }
}

impl LineCalls for LineStore {
    ghost use Rattle.pst_line.specs.Held.{stored_in, undo_in};

    ghost stored = { stored_in };

    ghost noted = { undo_in };

    fn known_line(&self) {
        self.whole();
    }

    fn start(&mut self, alloc: Global, shape: &Shape) -> Result<(), NoMemory> {
        let core = Core::start(alloc, shape)?;
        self.core = Some(core);
        Ok(())
    }

    fn begin(&mut self) -> LinePlace {
        match &mut self.core {
            None => LinePlace { stamp: Stamp(0) },
            Some(core) => core.begin(),
        }
    }

    fn undo(&mut self) {
        match &mut self.core {
            None => {}
            Some(core) => core.undo(),
        }
    }

    fn publish(&mut self, run: RunNo) -> Result<VersionNo, NoMemory> {
        match &mut self.core {
            None => Err(NoMemory),
            Some(core) => core.publish(run),
        }
    }

    fn at(&self, version: VersionNo) -> Option<LinePlace> {
        match &self.core {
            None => None,
            Some(core) => core.place_of(version),
        }
    }

    fn count(&self) -> u32 {
        match &self.core {
            None => 0,
            Some(core) => core.count(),
        }
    }

    fn counts(&self) -> Counts {
        match &self.core {
            None => Counts {
                records: 0,
                pointer_writes: 0,
                value_writes: 0,
            },
            Some(core) => core.counts(),
        }
    }

    fn nodes(&self) -> u64 {
        match &self.core {
            None => 0,
            Some(core) => core.node_count(),
        }
    }

    fn potential(&self) -> u64 {
        match &self.core {
            None => 0,
            Some(core) => core.potential(),
        }
    }
}
