//! A store of the parts of an image.

ghost use Rattle.std.specs.Prelude.{◌≡◌, [], IfOk, None, IsSomeAnd};
ghost use Rattle.pst_base.specs.Shape.{IsValid};
ghost use Rattle.pst_store.specs.Calls.{IsKept};
ghost use Rattle.pst_store.specs.Whole.{queue_in};
ghost use Rattle.pst_image_form.specs.Bytes.{Fits};
ghost use Rattle.pst_image_rules.specs.Rules.{IsJudged};
ghost use Rattle.pst_image_meaning.specs.Made.{IsRebuilt};

use crate::nodes::nodes_of;
use crate::order::order_of;
use crate::records::relics_of;
use crate::versions::{forks_of, places_of, tree_of};
use pst_base::{NoMemory, Shape};
use pst_image_form::ImageParts;
use pst_image_rules::order_of_runs;
use pst_order::Walked;
use pst_store::{Parts, Started, StoreOf};
use pst_store_arena::Listed;
use std::alloc::Global;

/// What a store of the parts is made of.
fn parts_of<O: Walked + Drop, N: Listed>(
    alloc: Global,
    shape: &Shape,
    parts: &ImageParts,
) -> Result<Parts<O, N>, NoMemory>
    requires valid { IsValid shape.now }
    requires fits { Fits parts.now }
    requires rules { IsJudged shape.now parts.now None }
    ensures kept { IfOk result IsKept }
    ensures rebuilt { IfOk result (IsRebuilt shape.now parts.now) }
{
    let versions = parts.versions.as_slice();
    let by_run = order_of_runs(alloc, versions, parts.next_run.0)?;
    let places = places_of(alloc, versions, &by_run)?;
    let tree = tree_of(alloc, versions, &places)?;
    let forks = forks_of(alloc, versions, &places, &by_run)?;
    let calls = by_run.len() as u32;
    let relics = relics_of(alloc, parts.nodes.as_slice())?;
    let order: O = order_of(alloc, parts.places)?;
    let list = nodes_of(alloc, shape, parts.nodes.as_slice())?;
    let nodes = N::of_list(alloc, &order, shape, list)?;
    Ok(Parts {
        shape: shape.copy(alloc)?,
        order,
        nodes,
        start: places[0],
        versions: tree,
        forks,
        calls,
        relics,
        // Each run before the next one took a number. Those without a version left no fork.
        spent: parts.next_run.0 - 1 - calls,
        counts: parts.counts,
    })
}

/// The store that an image tells of, for parts that were read and keep all rules for the shape of their text's program: it has the
/// image's versions, and the heap at each that the nodes denote; its forks are the versions after 0, in the order of their runs. It
/// takes time by the length of the image. `NoMemory` where there is no memory for it.
///
/// # Errors
/// Where there was no memory.
pub fn rebuild<O: Walked + Drop, N: Listed>(
    alloc: Global,
    shape: &Shape,
    parts: &ImageParts,
) -> Result<StoreOf<O, N>, NoMemory>
    requires valid { IsValid shape.now }
    requires fits { Fits parts.now }
    requires rules { IsJudged shape.now parts.now None }
    ensures rebuilt { IfOk result (λ store. IsSomeAnd store (IsRebuilt shape.now parts.now)) }
    ensures rested { IfOk result (λ store. queue_in store ≡ []) }
{
    let parts = parts_of(alloc, shape, parts)?;
    Ok(StoreOf::of_started(Started::of_parts(alloc, parts)?))
}
