//! The image of a store.

ghost use Rattle.std.specs.Prelude.{◌≡◌, [], IfOk, None, IsSomeAnd};
ghost use Rattle.pst_store_meaning.specs.Store.{arena};
ghost use Rattle.pst_store.specs.Whole.{queue_in};
ghost use Rattle.pst_image_form.specs.Bytes.{Fits, image_bytes};
ghost use Rattle.pst_image_rules.specs.Rules.{IsJudged};
ghost use Rattle.pst_image_meaning.specs.Parts.{parts_of as shown_parts};
ghost use Rattle.pst_image_meaning.specs.Left.{AreNumbers, IsLeftStore};
ghost use Rattle.pst_image_meaning.specs.Denoted.{AreShort, arena_in};

use crate::nodes::nodes_of;
use crate::positions::{place_count, positions_of};
use crate::versions::versions_of;
use pst_base::{Items, NoMemory, RunNo, Text};
use pst_image_form::{ImageParts, write_image};
use pst_order::Walked;
use pst_store::StoreOf;
use pst_store_arena::Listed;
use pst_versions::VersionedHeap;
use std::alloc::Global;

/// A store that an engine left as the parts of an image.
fn parts_of<O: Walked + Drop, N: Listed>(
    alloc: Global,
    store: &StoreOf<O, N>,
    text: &[u8],
    next_run: RunNo,
    budget: u32,
) -> Result<ImageParts, NoMemory>
    requires left { IsSomeAnd store.now (λ s. IsLeftStore s next_run.0) }
    requires numbers { AreNumbers next_run.0 budget }
    ensures parts { IfOk result (λ parts. IsSomeAnd store.now (λ s. parts ≡ shown_parts s text.now next_run.0 budget)) }
    ensures fits { IfOk result Fits }
    ensures short { IfOk result (λ _. IsSomeAnd store.now AreShort) }
{
    store.whole();
    let positions = positions_of(alloc, store.order())?;
    Ok(ImageParts {
        text: Items::from_vec(Vec::from_slice(alloc, text)?),
        budget,
        next_run,
        counts: store.counts(),
        places: place_count(&positions),
        versions: versions_of(alloc, store, &positions)?,
        nodes: nodes_of(alloc, store.node_list().list(), &positions)?,
    })
}

/// The image of a store that an engine left and in which no node waits, with the text of its program, the number of the next run and
/// the budget that stands. It takes time by its length. `NoMemory` where there is no memory for it: the store is as before.
///
/// # Errors
/// Where there was no memory.
pub fn pack<O: Walked + Drop, N: Listed>(
    alloc: Global,
    store: &StoreOf<O, N>,
    text: &[u8],
    next_run: RunNo,
    budget: u32,
) -> Result<Text, NoMemory>
    requires rested { queue_in store.now ≡ [] }
    requires left { IsSomeAnd store.now (λ s. IsLeftStore s next_run.0) }
    requires numbers { AreNumbers next_run.0 budget }
    ensures image { IfOk result (λ image. IsSomeAnd store.now (λ s. image ≡ image_bytes (shown_parts s text.now next_run.0 budget))) }
    ensures fits { IfOk result (λ _. IsSomeAnd store.now (λ s. Fits (shown_parts s text.now next_run.0 budget))) }
    ensures denotes { IfOk result (λ _. IsSomeAnd store.now (λ s. arena_in s.shape (shown_parts s text.now next_run.0 budget) ≡ arena s)) }
    ensures rules { IsSomeAnd store.now (λ s. IsJudged s.shape (shown_parts s text.now next_run.0 budget) None) }
{
    store.whole();
    let parts = parts_of(alloc, store, text, next_run, budget)?;
    write_image(alloc, &parts)
}
