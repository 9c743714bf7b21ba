//! Open runs.

use pst_base::{RunNo, VersionNo};
use pst_machine::Activation;
use pst_versions::VersionedHeap;
use std::alloc::Global;

/// An open run.
#[derive(Drop)]
pub struct OpenEntry<H: VersionedHeap> {
    /// Its number.
    pub run: RunNo,
    /// The version on whose heap it works.
    pub parent: VersionNo,
    /// How many calls it has been given, 0 to 1,024.
    pub calls: u32,
    /// Where it stands.
    pub activation: Activation<H>,
}

/// The open runs, one entry each, at most 64. Their order means nothing.
#[derive(Drop)]
pub struct Activations<H: VersionedHeap> {
    pub items: Vec<OpenEntry<H>>,
}

impl<H: VersionedHeap> Activations<H> {
    ghost use Rattle.std.specs.Prelude.{◌≡◌, []};

    /// No open run. It takes no memory.
    pub fn new(alloc: Global) -> Activations<H>
        ensures { result.items.items ≡ [] }
    {
        Activations {
            items: Vec::new(alloc),
        }
    }
}
