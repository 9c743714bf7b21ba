//! Writing: each write has its sync, and says what a crash leaves.

ghost use Rattle.std.specs.Prelude.{◌≡◌, ◌≢◌, ◌⊎◌, ◌+◌, ◌-◌, ◌<◌, ◌≤◌, ◌^◌, List, ℕ, [], false, length, take, drop, slice_index, Err, IfOk, OnOk, IsTrue, IsErrOf};
ghost use Rattle.sqlite_disk.specs.Disk.{Only, Mixed};
ghost use Rattle.pst_kept_text.specs.Text.{IsGroup, IsTornEnd, behind};
ghost use Rattle.pst_kept_text.specs.Written.{groups_in, IsSettled, IsPlace, Adds, AddsOrNot, IsWritten};
ghost use Rattle.pst_kept_text.specs.Causes.{CountsFailed, AlwaysMixes};
ghost use Rattle.pst_kept_text.specs.declared.error.DiskError.TheVariants.{DoesNotMix, TooLarge};

use crate::{DiskError, Place, zeros};
use sqlite_disk::Disk;
use std::alloc::Global;

/// The most bytes of a file before more room is made in it, and of a group that is appended.
const MOST: usize = 1 << 40;

/// How many zeros are written beyond what a group needs, so that few appends have to make room.
const SPARE: usize = 1 << 18;

/// Writes, and syncs. At any return a crash leaves each byte old or new. A disk that may leave other bytes of a torn write is refused.
pub fn write_synced<D: Disk>(disk: &mut D, at: usize, bytes: &[u8]) -> Result<(), DiskError>
    requires usable { IsTrue (D.Disk.is_usable disk.old) }
    requires durable { Only (D.Disk.seen disk.old) (D.Disk.may_leave disk.old) }
    requires some { 0 < length bytes.now }
    requires fits { at + length bytes.now < 2 ^ 64 }
    ensures written { OnOk result (IsWritten D.Disk at bytes.now disk.old disk.new) }
    ensures clean { IsTrue (D.Disk.is_clean disk.new) → IsTrue (D.Disk.is_clean disk.old) }
    ensures any_return { (c : List ℕ) → D.Disk.may_leave disk.new c → Mixed at bytes.now (D.Disk.seen disk.old) c }
    ensures failed { CountsFailed result (D.Disk.faults disk.old) (D.Disk.faults disk.new) }
    ensures mixes { AlwaysMixes D.Disk → result ≢ Err DoesNotMix }
    ensures does_not_mix { IsErrOf result DoesNotMix → D.Disk.is_mixing disk.old ≡ false }
    ensures not_large { result ≢ Err TooLarge }
{
    let mixes = disk.mixes();
    if !mixes {
        return Err(DiskError::DoesNotMix);
    }
    disk.write_at(at, bytes)?;
    disk.sync()?;
    Ok(())
}

/// Makes room for so many bytes and a zero behind them: if there is none, writes more zeros behind those that are there.
fn make_room<D: Disk>(
    alloc: Global,
    disk: &mut D,
    place: &mut Place,
    needed: usize,
) -> Result<(), DiskError>
    requires settled { IsSettled D.Disk disk.old place.old }
    ensures settled { OnOk result (IsSettled D.Disk disk.new place.new) }
    ensures room { OnOk result (place.new.end + needed < place.new.room) }
    ensures base { place.new.base ≡ place.old.base }
    ensures clean { IsTrue (D.Disk.is_clean disk.new) → IsTrue (D.Disk.is_clean disk.old) }
    ensures same { OnOk result (IsTrue (D.Disk.is_clean disk.new) → Adds place.old.base (D.Disk.seen disk.old) [] (D.Disk.seen disk.new)) }
    ensures any_return { IsTrue (D.Disk.is_clean disk.new) → (c : List ℕ) → D.Disk.may_leave disk.new c → Adds place.old.base (D.Disk.seen disk.old) [] c }
    ensures failed { CountsFailed result (D.Disk.faults disk.old) (D.Disk.faults disk.new) }
    ensures mixes { AlwaysMixes D.Disk → result ≢ Err DoesNotMix }
    ensures too_large { IsErrOf result TooLarge → (2 ^ 40 < place.old.room) ⊎ (2 ^ 40 < needed) }
{
    if needed < place.room - place.end {
        return Ok(());
    }
    if place.room > MOST || needed > MOST {
        return Err(DiskError::TooLarge);
    }
    let more = zeros(alloc, needed + SPARE)?;
    write_synced(disk, place.room, &more)?;
    place.room += more.len();
    Ok(())
}

/// Writes a group behind those that are there, and syncs. At `Ok` a crash leaves it. At any return a crash leaves all that was there, and
/// of the group all or nothing. After an `Err` open the file again.
pub fn append<D: Disk>(
    alloc: Global,
    disk: &mut D,
    place: &mut Place,
    group: &[u8],
) -> Result<(), DiskError>
    requires settled { IsSettled D.Disk disk.old place.old }
    requires group { IsGroup group.now }
    ensures settled { OnOk result (IsSettled D.Disk disk.new place.new) }
    ensures base { place.new.base ≡ place.old.base }
    ensures clean { IsTrue (D.Disk.is_clean disk.new) → IsTrue (D.Disk.is_clean disk.old) }
    ensures added { OnOk result (IsTrue (D.Disk.is_clean disk.new) → Adds place.old.base (D.Disk.seen disk.old) group.now (D.Disk.seen disk.new)) }
    ensures any_return { IsTrue (D.Disk.is_clean disk.new) → (c : List ℕ) → D.Disk.may_leave disk.new c → AddsOrNot place.old.base (D.Disk.seen disk.old) group.now c }
    ensures failed { CountsFailed result (D.Disk.faults disk.old) (D.Disk.faults disk.new) }
    ensures mixes { AlwaysMixes D.Disk → result ≢ Err DoesNotMix }
    ensures too_large { IsErrOf result TooLarge → (2 ^ 40 < place.old.room) ⊎ (2 ^ 40 < length group.now) }
{
    make_room(alloc, disk, place, group.len())?;
    write_synced(disk, place.end, group)?;
    place.end += group.len();
    Ok(())
}

/// Clears what stands behind the whole groups, and syncs. At any return a crash leaves the same groups.
pub fn clear<D: Disk>(alloc: Global, disk: &mut D, place: Place) -> Result<(), DiskError>
    requires usable { IsTrue (D.Disk.is_usable disk.old) }
    requires durable { Only (D.Disk.seen disk.old) (D.Disk.may_leave disk.old) }
    requires place { IsPlace place }
    requires len { IsTrue (D.Disk.is_clean disk.old) → length (D.Disk.seen disk.old) ≡ place.room }
    requires text { IsTrue (D.Disk.is_clean disk.old) → groups_in place.base (D.Disk.seen disk.old) ≡ take (place.end - place.base) (drop place.base (D.Disk.seen disk.old)) }
    requires torn_end { IsTrue (D.Disk.is_clean disk.old) → IsTornEnd (behind (drop place.base (D.Disk.seen disk.old))) }
    ensures settled { OnOk result (IsSettled D.Disk disk.new place) }
    ensures clean { IsTrue (D.Disk.is_clean disk.new) → IsTrue (D.Disk.is_clean disk.old) }
    ensures same { OnOk result (IsTrue (D.Disk.is_clean disk.new) → Adds place.base (D.Disk.seen disk.old) [] (D.Disk.seen disk.new)) }
    ensures any_return { IsTrue (D.Disk.is_clean disk.new) → (c : List ℕ) → D.Disk.may_leave disk.new c → Adds place.base (D.Disk.seen disk.old) [] c }
    ensures failed { CountsFailed result (D.Disk.faults disk.old) (D.Disk.faults disk.new) }
    ensures mixes { AlwaysMixes D.Disk → result ≢ Err DoesNotMix }
    ensures not_large { result ≢ Err TooLarge }
{
    let none = zeros(alloc, place.room - place.end)?;
    write_synced(disk, place.end, &none)
}
