//! Writing a whole file: its gate is shut, what is behind it is written, and the gate is opened.

ghost use Rattle.std.specs.Prelude.{◌≡◌, ◌≢◌, ◌+◌, ◌<◌, ◌≤◌, ◌^◌, ◌∷◌, ◌++◌, [], List, ℕ, length, slice_index, Err, OnOk, IsTrue};
ghost use Rattle.sqlite_disk.specs.Disk.{Only};
ghost use Rattle.pst_kept_text.specs.Causes.{CountsFailed, AlwaysMixes};
ghost use Rattle.pst_kept_text.specs.declared.error.DiskError.TheVariants.{DoesNotMix, TooLarge};
ghost use Rattle.pst_kept_files.specs.Standing.{IsStage, body_of};
ghost use Rattle.pst_kept_files.specs.Staged.{IsShut, OrDoesNotCount};

use pst_kept_text::{DiskError, write_synced, zeros};
use sqlite_disk::Disk;
use std::alloc::Global;

/// How many zeros stand behind the image of a file that was written anew.
pub const ROOM: usize = 1 << 18;

/// Writes bytes behind all others of a file whose gate is shut. At any return a crash leaves it shut.
fn extend<D: Disk>(disk: &mut D, at: usize, bytes: &[u8]) -> Result<(), DiskError>
    requires shut { IsShut D.Disk disk.old }
    requires end { at ≡ length (D.Disk.seen disk.old) }
    ensures shut { IsShut D.Disk disk.new }
    ensures clean { IsTrue (D.Disk.is_clean disk.new) → IsTrue (D.Disk.is_clean disk.old) }
    ensures added { OnOk result (D.Disk.seen disk.new ≡ D.Disk.seen disk.old ++ bytes.now) }
    ensures failed { CountsFailed result (D.Disk.faults disk.old) (D.Disk.faults disk.new) }
    ensures mixes { AlwaysMixes D.Disk → result ≢ Err DoesNotMix }
    ensures not_large { result ≢ Err TooLarge }
{
    if bytes.is_empty() {
        return Ok(());
    }
    disk.write_at(at, bytes)?;
    Ok(())
}

/// Cuts a file to its gate, which is shut.
fn cut<D: Disk>(disk: &mut D) -> Result<(), DiskError>
    requires usable { IsTrue (D.Disk.is_usable disk.old) }
    requires durable { Only (D.Disk.seen disk.old) (D.Disk.may_leave disk.old) }
    requires gate { slice_index (D.Disk.seen disk.old) 0 ≡ 0 }
    requires some { 0 < length (D.Disk.seen disk.old) }
    ensures shut { IsShut D.Disk disk.new }
    ensures clean { IsTrue (D.Disk.is_clean disk.new) → IsTrue (D.Disk.is_clean disk.old) }
    ensures gate_alone { OnOk result (D.Disk.seen disk.new ≡ 0 ∷ []) }
    ensures failed { CountsFailed result (D.Disk.faults disk.old) (D.Disk.faults disk.new) }
    ensures mixes { AlwaysMixes D.Disk → result ≢ Err DoesNotMix }
    ensures not_large { result ≢ Err TooLarge }
{
    disk.set_len(1)?;
    Ok(())
}

/// Writes all that is behind a file's gate, which is shut, and syncs.
fn replace<D: Disk>(disk: &mut D, head: &[u8], image: &[u8], room: &[u8]) -> Result<(), DiskError>
    requires usable { IsTrue (D.Disk.is_usable disk.old) }
    requires durable { Only (D.Disk.seen disk.old) (D.Disk.may_leave disk.old) }
    requires gate { slice_index (D.Disk.seen disk.old) 0 ≡ 0 }
    requires some { 0 < length (D.Disk.seen disk.old) }
    requires head { length head.now ≡ 48 }
    requires few { length image.now < 2 ^ 62 }
    ensures usable { OnOk result (IsTrue (D.Disk.is_usable disk.new)) }
    ensures durable { OnOk result (Only (D.Disk.seen disk.new) (D.Disk.may_leave disk.new)) }
    ensures clean { IsTrue (D.Disk.is_clean disk.new) → IsTrue (D.Disk.is_clean disk.old) }
    ensures written { OnOk result (D.Disk.seen disk.new ≡ 0 ∷ (head.now ++ image.now ++ room.now)) }
    ensures any_return { (c : List ℕ) → D.Disk.may_leave disk.new c → slice_index c 0 ≡ 0 }
    ensures failed { CountsFailed result (D.Disk.faults disk.old) (D.Disk.faults disk.new) }
    ensures mixes { AlwaysMixes D.Disk → result ≢ Err DoesNotMix }
    ensures not_large { result ≢ Err TooLarge }
{
    cut(disk)?;
    extend(disk, 1, head)?;
    extend(disk, 49, image)?;
    extend(disk, 49 + image.len(), room)?;
    disk.sync()?;
    Ok(())
}

/// Writes a whole new file in the place of the old one: shuts its gate, writes what is behind, and opens the gate, each with a sync.
/// At any return a crash leaves the old file, one that doesn't count, or the new one.
pub fn write_whole<D: Disk>(
    alloc: Global,
    disk: &mut D,
    head: &[u8],
    image: &[u8],
) -> Result<(), DiskError>
    requires usable { IsTrue (D.Disk.is_usable disk.old) }
    requires durable { Only (D.Disk.seen disk.old) (D.Disk.may_leave disk.old) }
    requires head { length head.now ≡ 48 }
    requires few { length image.now < 2 ^ 62 }
    ensures usable { OnOk result (IsTrue (D.Disk.is_usable disk.new)) }
    ensures durable { OnOk result (Only (D.Disk.seen disk.new) (D.Disk.may_leave disk.new)) }
    ensures clean { IsTrue (D.Disk.is_clean disk.new) → IsTrue (D.Disk.is_clean disk.old) }
    ensures written { OnOk result (D.Disk.seen disk.new ≡ 1 ∷ body_of head.now image.now) }
    ensures any_return { (c : List ℕ) → D.Disk.may_leave disk.new c → IsStage (D.Disk.seen disk.old) (body_of head.now image.now) c }
    ensures failed { CountsFailed result (D.Disk.faults disk.old) (D.Disk.faults disk.new) }
    ensures mixes { AlwaysMixes D.Disk → result ≢ Err DoesNotMix }
    ensures not_large { result ≢ Err TooLarge }
{
    let room = zeros(alloc, ROOM)?;
    write_synced(disk, 0, &[0])?;
    replace(disk, head, image, &room)?;
    write_synced(disk, 0, &[1])?;
    Ok(())
}

/// Shuts a file's gate, and syncs. At any return a crash leaves the file as it was or shut.
pub fn shut<D: Disk>(disk: &mut D) -> Result<(), DiskError>
    requires usable { IsTrue (D.Disk.is_usable disk.old) }
    requires durable { Only (D.Disk.seen disk.old) (D.Disk.may_leave disk.old) }
    ensures usable { OnOk result (IsTrue (D.Disk.is_usable disk.new)) }
    ensures durable { OnOk result (Only (D.Disk.seen disk.new) (D.Disk.may_leave disk.new)) }
    ensures clean { IsTrue (D.Disk.is_clean disk.new) → IsTrue (D.Disk.is_clean disk.old) }
    ensures shut { OnOk result (slice_index (D.Disk.seen disk.new) 0 ≡ 0) }
    ensures any_return { (c : List ℕ) → D.Disk.may_leave disk.new c → OrDoesNotCount (D.Disk.seen disk.old) c }
    ensures failed { CountsFailed result (D.Disk.faults disk.old) (D.Disk.faults disk.new) }
    ensures mixes { AlwaysMixes D.Disk → result ≢ Err DoesNotMix }
    ensures not_large { result ≢ Err TooLarge }
{
    write_synced(disk, 0, &[0])
}
