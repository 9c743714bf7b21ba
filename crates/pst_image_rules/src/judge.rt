//! Which rule fails first.

ghost use Rattle.std.specs.Prelude.{◌^◌, ◌<◌, length, IfOk};
ghost use Rattle.pst_base.specs.Shape.{IsValid};
ghost use Rattle.pst_image_rules.specs.Rules.{HoldBelow, IsJudged};

use crate::capacity::{are_within_capacity, is_bounded};
use crate::rule::Rule;
use crate::sides::{are_entries_pointed, are_pointers_entered};
use crate::{are_chained, are_nested, are_nodes, is_in_range};
use pst_base::{NoMemory, Shape};
use pst_image_form::ImageParts;
use std::alloc::Global;

/// The first rule that fails of those from `Pointers` on, or None where all hold.
fn first_failed_later(shape: &Shape, parts: &ImageParts) -> Option<Rule>
    requires valid { IsValid shape.now }
    requires earlier { HoldBelow shape.now parts.now 6 }
    ensures { IsJudged shape.now parts.now result }
{
    let nodes = parts.nodes.as_slice();
    if !are_pointers_entered(shape, nodes) {
        return Some(Rule::Pointers);
    }
    if !are_entries_pointed(shape, nodes) {
        return Some(Rule::Entries);
    }
    if !are_within_capacity(shape, nodes) {
        return Some(Rule::Capacity);
    }
    if !is_bounded(shape, &parts.counts, nodes) {
        return Some(Rule::Bound);
    }
    None
}

/// The first rule that fails of those from `Ranges` on, or None where all hold, for parts that were read and the shape of their text's
/// program. It takes time by the number of versions, runs, slots and stamped values, times the limit of a type and the logarithm of a
/// node's stamped values, and the time to sort the names of records.
///
/// # Errors
/// Where there was no memory.
pub fn first_failed(
    alloc: Global,
    shape: &Shape,
    parts: &ImageParts,
) -> Result<Option<Rule>, NoMemory>
    requires valid { IsValid shape.now }
    requires few { length parts.now.versions < 2 ^ 32 }
    ensures { IfOk result (λ rule. IsJudged shape.now parts.now rule) }
{
    let versions = parts.versions.as_slice();
    let nodes = parts.nodes.as_slice();
    let next_run = parts.next_run.0;
    if !is_in_range(parts) {
        return Ok(Some(Rule::Ranges));
    }
    if !are_nested(alloc, versions, parts.places, next_run)? {
        return Ok(Some(Rule::Versions));
    }
    if !are_nodes(shape, parts.places, nodes) {
        return Ok(Some(Rule::Nodes));
    }
    if !are_chained(alloc, parts.places, next_run, nodes)? {
        return Ok(Some(Rule::Chains));
    }
    Ok(first_failed_later(shape, parts))
}
