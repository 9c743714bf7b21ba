//! The numbers of an image.

ghost use Rattle.std.specs.Prelude.{◌↔◌, IsTrue};
ghost use Rattle.pst_image_rules.specs.Versions.{IsInRange};

use pst_image_form::ImageParts;

/// The highest budget of a run, in charges.
const MOST_BUDGET: u32 = 1_000_000_000;

/// The highest next run number: the one behind the last run that a history can have.
const MOST_NEXT_RUN: u32 = 1_048_577;

/// The highest count of records, of pointer writes and of value writes.
const MOST_COUNT: u64 = 1 << 50;

/// Whether the numbers of an image are in their ranges: the budget from 1 to 1,000,000,000; the next run number from 1 to 1,048,577;
/// each count at most 2^50; the number of places from 2 to twice the next run number; at least one version and one node.
pub fn is_in_range(parts: &ImageParts) -> bool
    ensures { IsTrue result ↔ IsInRange parts.now }
{
    let next_run = parts.next_run.0;
    1 <= parts.budget
        && parts.budget <= MOST_BUDGET
        && 1 <= next_run
        && next_run <= MOST_NEXT_RUN
        && parts.counts.records <= MOST_COUNT
        && parts.counts.pointer_writes <= MOST_COUNT
        && parts.counts.value_writes <= MOST_COUNT
        && 2 <= parts.places
        && parts.places <= 2 * next_run
        && !parts.versions.as_slice().is_empty()
        && !parts.nodes.as_slice().is_empty()
}
