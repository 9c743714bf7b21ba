//! Reading the whole of a file.

ghost use Rattle.std.specs.Prelude.{◌≡◌, ◌≢◌, List, ℕ, length, Err, IfOk, OnOk, IsTrue};
ghost use Rattle.pst_kept_text.specs.Written.{OnlyReads};
ghost use Rattle.pst_kept_text.specs.Causes.{CountsFailed, AlwaysMixes};
ghost use Rattle.pst_kept_text.specs.declared.error.DiskError.TheVariants.{DoesNotMix, TooLarge};

use crate::{DiskError, zeros};
use sqlite_disk::Disk;
use std::alloc::Global;

/// Fills the buffer from the start of a file.
fn fill<D: Disk>(disk: &mut D, bytes: &mut [u8]) -> Result<(), DiskError>
    requires usable { IsTrue (D.Disk.is_usable disk.old) }
    requires len { IsTrue (D.Disk.is_clean disk.old) → length bytes.old ≡ length (D.Disk.seen disk.old) }
    ensures bytes { OnOk result (IsTrue (D.Disk.is_clean disk.new) → bytes.new ≡ D.Disk.seen disk.old) }
    ensures reads { OnlyReads D.Disk disk.old disk.new }
    ensures failed { CountsFailed result (D.Disk.faults disk.old) (D.Disk.faults disk.new) }
    ensures mixes { AlwaysMixes D.Disk → result ≢ Err DoesNotMix }
    ensures not_large { result ≢ Err TooLarge }
{
    if bytes.is_empty() {
        return Ok(());
    }
    disk.read_at(0, bytes)?;
    Ok(())
}

/// All the bytes of a file.
pub fn read_all<D: Disk>(alloc: Global, disk: &mut D) -> Result<Vec<u8>, DiskError>
    requires usable { IsTrue (D.Disk.is_usable disk.old) }
    ensures bytes { IfOk result (λ bytes. IsTrue (D.Disk.is_clean disk.new) → bytes.items ≡ D.Disk.seen disk.old) }
    ensures reads { OnlyReads D.Disk disk.old disk.new }
    ensures failed { CountsFailed result (D.Disk.faults disk.old) (D.Disk.faults disk.new) }
    ensures mixes { AlwaysMixes D.Disk → result ≢ Err DoesNotMix }
    ensures not_large { result ≢ Err TooLarge }
{
    let len = disk.len()?;
    let mut bytes = zeros(alloc, len)?;
    fill(disk, &mut bytes)?;
    Ok(bytes)
}
