//! A store with a ring of two items, made in it by run 1.

ghost use Rattle.std.specs.Prelude.{◌≡◌, ◌<◌, IfOk, IsTrue, None, Some, length, slice_get};
ghost use Rattle.pst_base.specs.declared.names.Kind.TheVariants.{Pointer};
ghost use Rattle.pst_base.specs.Shape.{field_kind, type_at};
ghost use Rattle.pst_versions.specs.declared.rows.VersionRow.{VersionRow};
ghost use Rattle.pst_versions.specs.declared.versioned.TheConstants.{MOST_FORKS};
ghost use Rattle.pst_versions.specs.State.{IsFresh, IsNewType, IsPublished};
ghost use Rattle.pst_versions.specs.Client.{HasRoomFor};
ghost use Rattle.pst_store_splits_cases.specs.Rings.{HasRing};
ghost use Rattle.pst_store.specs.Whole.{state_in};

use pst_base::{
    Kind, Name, NoMemory, NodeId, RunNo, Shape, SlotNo, Targets, TypeNo, TypeShape, VersionNo,
};
use pst_store::Store;
use pst_store_meaning::place::Place;
use pst_versions::{StoreFault, VersionedHeap, link_two};
use std::alloc::Global;

/// The type of the items, which is that of all records but the root record.
pub const ITEM: TypeNo = TypeNo(1);

/// The field of an item that holds its number.
pub const VALUE: SlotNo = SlotNo(0);

/// The field of an item that holds an item.
pub const NEXT: SlotNo = SlotNo(1);

/// The first item of the ring.
pub const FIRST: Name = Name {
    run: RunNo(1),
    ordinal: 0,
};

/// The second item of the ring.
pub const SECOND: Name = Name {
    run: RunNo(1),
    ordinal: 1,
};

/// Why the test comes to no answer.
#[derive(Clone, Copy, Debug, PartialEq, Eq)]
pub enum Trouble {
    /// What a call needs does not hold.
    Misfit,
    /// A record is held too often.
    InDegree,
    /// Memory ran out.
    Memory,
}

impl From<NoMemory> for Trouble {
    fn from(_error: NoMemory) -> Trouble {
        Trouble::Memory
    }
}

impl From<StoreFault> for Trouble {
    fn from(fault: StoreFault) -> Trouble {
        match fault {
            StoreFault::InDegree => Trouble::InDegree,
            StoreFault::Memory => Trouble::Memory,
        }
    }
}

/// A type with so many numbers, one pointer to an item, and this limit.
pub fn type_of(alloc: Global, values: u16, limit: u8) -> Result<TypeShape, NoMemory> {
    Ok(TypeShape {
        values,
        targets: Targets::from_vec(vec![in alloc; ITEM]?),
        limit,
    })
}

/// Whether a field of a type has a kind.
pub fn has_kind(shape: &Shape, ty: TypeNo, field: SlotNo, kind: Kind) -> bool
    ensures there { IsTrue result → ty.0 < length shape.now }
    ensures kind { IsTrue result → field_kind (type_at shape.now ty) field.0 ≡ Some kind }
{
    match shape.as_slice().get(usize::from(ty.0)) {
        None => false,
        Some(of) => of.kind(field) == Some(kind),
    }
}

/// Forks a place, lets two new items hold each other there, and publishes the fork. It answers the version, its place and the
/// two items.
fn publish_ring<H: VersionedHeap>(
    heap: &mut H,
    from: H::Place,
) -> Result<(VersionNo, H::Place, H::Ref, H::Ref), StoreFault>
    requires published { IsPublished (H.state heap.old) from }
    requires calls { (H.state heap.old).fork_calls < MOST_FORKS }
    requires known_type { IsNewType (H.state heap.old) ITEM }
    requires first_fresh { IsFresh (H.state heap.old) FIRST }
    requires second_fresh { IsFresh (H.state heap.old) SECOND }
    requires field { field_kind (type_at (H.state heap.old).shape ITEM) NEXT.0 ≡ Some (Pointer ITEM) }
    requires room { HasRoomFor (H.state heap.old) 4 }
    requires version { (row : VersionRow H.Place) × (slice_get (H.state heap.old).versions 0 ≡ Some row) × (row.place ≡ from) }
    ensures live { IfOk result (λ made. HasRing (H.state heap.new) made.2 made.3 made.1) }
{
    let at = heap.fork(from)?;
    let (first, second) = link_two(heap, at, ITEM, FIRST, SECOND, NEXT)?;
    let version = heap.publish(VersionNo(0), RunNo(1), at)?;
    Ok((version, at, first, second))
}

/// Starts an empty store, and publishes a version with a ring of two items.
pub fn start_ring(
    alloc: Global,
    store: &mut Store,
    shape: &Shape,
) -> Result<(VersionNo, Place, NodeId, NodeId), Trouble>
    requires { store.old ≡ None }
    ensures { IfOk result (λ made. HasRing (state_in store.new) made.2 made.3 made.1) }
{
    if !shape.is_valid() || !has_kind(shape, ITEM, NEXT, Kind::Pointer(ITEM)) {
        return Err(Trouble::Misfit);
    }
    store.start(alloc, shape)?;
    match store.place_of(VersionNo(0)) {
        None => Err(Trouble::Misfit),
        Some(from) => Ok(publish_ring(store, from)?),
    }
}
