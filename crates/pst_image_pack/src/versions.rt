//! Versions as the parts of an image.

ghost use Rattle.std.specs.Prelude.{◌≡◌, ◌<◌, ◌^◌, ℕ, IfOk, Some, length, map, slice_get, IfSome};
ghost use Rattle.std.specs.List.{AllByRecursion};
ghost use Rattle.pst_store.specs.Whole.{state_in};
ghost use Rattle.pst_image_form.specs.Bytes.{FitsVersion};
ghost use Rattle.pst_image_meaning.specs.Parts.{version_part as part_of_version};
ghost use Rattle.pst_image_pack.specs.Positions.{position_in};

use crate::positions::position;
use pst_base::{Items, NoMemory, VersionNo};
use pst_image_form::VersionPart;
use pst_order::Order;
use pst_store::StoreOf;
use pst_store_arena::FatNodes;
use pst_versions::VersionedHeap;
use std::alloc::Global;

/// A version of a store, with the positions of its place.
fn version_part<O: Order + Drop, N: FatNodes>(
    store: &StoreOf<O, N>,
    version: VersionNo,
    positions: &[u32],
) -> VersionPart
    requires few { length positions.now < 2 ^ 32 }
    requires there { version.0 < length (state_in store.now).versions }
    requires root { IfSome (slice_get (state_in store.now).versions 0) (λ row. row.parent.0 ≡ 0) }
    ensures part { IfSome (slice_get (state_in store.now).versions version.0) (λ row. result ≡ part_of_version (position_in positions.now) row) }
    ensures fits { FitsVersion result }
{
    let (begin, end) = store.ends_of(version).unwrap();
    VersionPart {
        parent: store.parent(version).unwrap_or(VersionNo(0)),
        run: store.run_of(version).unwrap(),
        begin: position(positions, begin),
        end: position(positions, end),
    }
}

/// The versions of a store, by their numbers. It takes time by their number.
///
/// # Errors
/// Where there was no memory.
pub fn versions_of<O: Order + Drop, N: FatNodes>(
    alloc: Global,
    store: &StoreOf<O, N>,
    positions: &[u32],
) -> Result<Items<VersionPart>, NoMemory>
    requires few { length positions.now < 2 ^ 32 }
    requires root { IfSome (slice_get (state_in store.now).versions 0) (λ row. row.parent.0 ≡ 0) }
    ensures parts { IfOk result (λ parts. parts ≡ map (part_of_version (position_in positions.now)) (state_in store.now).versions) }
    ensures fits { IfOk result (AllByRecursion FitsVersion) }
{
    let mut parts = Vec::with_capacity(alloc, store.count() as usize)?;
    for version in 0..store.count() {
        parts.push(version_part(store, VersionNo(version), positions))?;
    }
    Ok(Items::from_vec(parts))
}
