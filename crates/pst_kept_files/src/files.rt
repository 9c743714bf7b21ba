//! Two files, of which one counts: made, appended to, and written anew.

ghost use Rattle.std.specs.Prelude.{◌≡◌, ◌≢◌, ◌⊎◌, ◌+◌, ◌<◌, ◌≤◌, ◌^◌, ◌++◌, [], List, ℕ, length, None, Err, IfOk, IfErr, OnOk, IsTrue};
ghost use Rattle.sqlite_disk.specs.Disk.{Only};
ghost use Rattle.pst_kept_text.specs.Text.{IsPlain};
ghost use Rattle.pst_kept_text.specs.Written.{OnlyReads};
ghost use Rattle.pst_kept_text.specs.Causes.{CountsFailed, AlwaysMixes};
ghost use Rattle.pst_kept_files.specs.Standing.{IsStage, stands, new_body};
ghost use Rattle.pst_kept_files.specs.Kept.{AreClean, IsHeld, IsHeldBy, IsNew, Keeps, KeepsEither, Means, MeansBy, CountsFailedIn};
ghost use Rattle.pst_kept_files.specs.declared.error.FilesError.TheVariants.{Disk, NotEmpty};
ghost use Rattle.pst_kept_text.specs.declared.error.DiskError.TheVariants.{DoesNotMix, TooLarge};

use crate::checks::{check, letters_of, sealed};
use crate::head::{HEAD, head};
use crate::stage::{ROOM, shut, write_whole};
use crate::{FilesError, Kept, Role};
use pst_kept_text::{DiskError, Place, append as append_group};
use sha2::{Digest, Sha256};
use sqlite_disk::Disk;
use std::alloc::Global;

/// The last generation behind which the files can be written anew.
const LAST_GENERATION: u64 = 1 << 62;

/// Writes a whole new file with this image and no commands. At any return a crash leaves the old file, one that doesn't count, or the new one.
fn write_new<D: Disk>(
    alloc: Global,
    disk: &mut D,
    role: Role,
    generation: u64,
    image: &[u8],
) -> Result<Kept, DiskError>
    requires usable { IsTrue (D.Disk.is_usable disk.old) }
    requires durable { Only (D.Disk.seen disk.old) (D.Disk.may_leave disk.old) }
    requires few { length image.now < 2 ^ 61 }
    ensures written { IfOk result (λ kept. IsNew D.Disk disk.new role generation image.now kept) }
    ensures clean { IsTrue (D.Disk.is_clean disk.new) → IsTrue (D.Disk.is_clean disk.old) }
    ensures any_return { (c : List ℕ) → D.Disk.may_leave disk.new c → IsStage (D.Disk.seen disk.old) (new_body generation image.now) c }
    ensures failed { CountsFailed result (D.Disk.faults disk.old) (D.Disk.faults disk.new) }
    ensures mixes { AlwaysMixes D.Disk → result ≢ Err DoesNotMix }
    ensures not_large { result ≢ Err TooLarge }
{
    let digest = Sha256::digest(image);
    let head = head(alloc, generation, image.len(), &digest)?;
    write_whole(alloc, disk, &head, image)?;
    let end = HEAD + image.len();
    Ok(Kept {
        role,
        place: Place {
            base: end,
            end,
            room: end + ROOM,
        },
        generation,
        check: letters_of(&digest),
    })
}

/// Makes a store in two files that are empty, with this image and no commands. At any return a crash leaves two files that stand for
/// nothing, or for this.
pub fn create<D: Disk>(
    alloc: Global,
    one: &mut D,
    two: &mut D,
    image: &[u8],
) -> Result<Kept, FilesError>
    requires usable { IsTrue (D.Disk.is_usable one.old) }
    requires two_usable { IsTrue (D.Disk.is_usable two.old) }
    requires durable { Only (D.Disk.seen one.old) (D.Disk.may_leave one.old) }
    requires two_durable { Only (D.Disk.seen two.old) (D.Disk.may_leave two.old) }
    requires few { length image.now < 2 ^ 61 }
    ensures held { IfOk result (λ kept. IsHeld D.Disk one.new two.new kept.role kept) }
    ensures clean { AreClean D.Disk one.new two.new → AreClean D.Disk one.old two.old }
    ensures created { IfOk result (λ kept. AreClean D.Disk one.new two.new → Means (D.Disk.seen one.new) (D.Disk.seen two.new) kept.role kept image.now []) }
    ensures any_return { AreClean D.Disk one.new two.new → stands (D.Disk.seen one.old) (D.Disk.seen two.old) ≡ None
        → (c d : List ℕ) → D.Disk.may_leave one.new c → D.Disk.may_leave two.new d → (stands c d ≡ None) ⊎ Keeps c d image.now [] }
    ensures not_empty { result ≡ Err NotEmpty → AreClean D.Disk one.new two.new → (1 < length (D.Disk.seen one.old)) ⊎ (1 < length (D.Disk.seen two.old)) }
    ensures unchanged { result ≡ Err NotEmpty → OnlyReads D.Disk one.old one.new × OnlyReads D.Disk two.old two.new }
    ensures failed { IfErr result (CountsFailedIn (D.Disk.faults one.old) (D.Disk.faults one.new) (D.Disk.faults two.old) (D.Disk.faults two.new)) }
    ensures mixes { AlwaysMixes D.Disk → result ≢ Err (Disk DoesNotMix) }
    ensures not_large { result ≢ Err (Disk TooLarge) }
{
    let len = one.len()?;
    let two_len = two.len()?;
    if len > 1 || two_len > 1 {
        return Err(FilesError::NotEmpty);
    }
    let kept = write_new(alloc, one, Role::First, 1, image)?;
    Ok(kept)
}

/// Appends commands to the file that counts.
fn append_to<D: Disk>(
    alloc: Global,
    kept: &mut Kept,
    counting: &mut D,
    other: &D,
    commands: &[u8],
) -> Result<(), DiskError>
    requires held { IsHeldBy D.Disk counting.old other.now kept.old }
    requires plain { IsPlain commands.now }
    ensures held { OnOk result (IsHeldBy D.Disk counting.new other.now kept.new) }
    ensures clean { IsTrue (D.Disk.is_clean counting.new) → IsTrue (D.Disk.is_clean counting.old) }
    ensures role { kept.new.role ≡ kept.old.role }
    ensures added { OnOk result (AreClean D.Disk counting.new other.now → (image before : List ℕ)
        → MeansBy (D.Disk.seen counting.old) (D.Disk.seen other.now) kept.old image before
        → MeansBy (D.Disk.seen counting.new) (D.Disk.seen other.now) kept.new image (before ++ commands.now)) }
    ensures any_return { AreClean D.Disk counting.new other.now → (image before : List ℕ)
        → MeansBy (D.Disk.seen counting.old) (D.Disk.seen other.now) kept.old image before
        → (c d : List ℕ) → D.Disk.may_leave counting.new c → D.Disk.may_leave other.now d → KeepsEither c d image before image (before ++ commands.now) }
    ensures failed { CountsFailed result (D.Disk.faults counting.old) (D.Disk.faults counting.new) }
    ensures mixes { AlwaysMixes D.Disk → result ≢ Err DoesNotMix }
    ensures too_large { result ≡ Err TooLarge → (2 ^ 40 < kept.old.place.room) ⊎ (2 ^ 40 < length commands.now + 17) }
{
    // The other file is for the clauses alone.
    let _ = other;
    let check = check(&kept.check, commands);
    let group = sealed(alloc, commands, &check)?;
    append_group(alloc, counting, &mut kept.place, &group)?;
    kept.check = check;
    Ok(())
}

/// Writes the other file anew, with the next generation, this image and no commands, and then shuts the one that counted.
fn renew<D: Disk>(
    alloc: Global,
    kept: Kept,
    counting: &mut D,
    other: &mut D,
    role: Role,
    image: &[u8],
) -> Result<Kept, DiskError>
    requires held { IsHeldBy D.Disk counting.old other.old kept }
    requires few { length image.now < 2 ^ 61 }
    ensures held { IfOk result (λ new. IsHeldBy D.Disk other.new counting.new new) }
    ensures role { IfOk result (λ new. new.role ≡ role) }
    ensures clean { AreClean D.Disk counting.new other.new → AreClean D.Disk counting.old other.old }
    ensures renewed { IfOk result (λ new. MeansBy (D.Disk.seen other.new) (D.Disk.seen counting.new) new image.now []) }
    ensures any_return { AreClean D.Disk counting.new other.new → (before commands : List ℕ)
        → MeansBy (D.Disk.seen counting.old) (D.Disk.seen other.old) kept before commands
        → (c d : List ℕ) → D.Disk.may_leave counting.new c → D.Disk.may_leave other.new d → KeepsEither c d before commands image.now [] }
    ensures failed { IfErr result (λ e. CountsFailedIn (D.Disk.faults counting.old) (D.Disk.faults counting.new) (D.Disk.faults other.old) (D.Disk.faults other.new) (Disk e)) }
    ensures mixes { AlwaysMixes D.Disk → result ≢ Err DoesNotMix }
    ensures too_large { result ≡ Err TooLarge → 2 ^ 62 ≤ kept.generation }
{
    if kept.generation >= LAST_GENERATION {
        return Err(DiskError::TooLarge);
    }
    let new = write_new(alloc, other, role, kept.generation + 1, image)?;
    shut(counting)?;
    Ok(new)
}

/// Appends commands, whose bytes are neither zero nor 30, and syncs. At `Ok` a crash leaves them. At any return a crash leaves all that
/// was kept, and of these commands all or nothing. After an `Err` open the files again.
pub fn append<D: Disk>(
    alloc: Global,
    kept: &mut Kept,
    one: &mut D,
    two: &mut D,
    commands: &[u8],
) -> Result<(), FilesError>
    requires held { IsHeld D.Disk one.old two.old kept.old.role kept.old }
    requires plain { IsPlain commands.now }
    ensures held { OnOk result (IsHeld D.Disk one.new two.new kept.new.role kept.new) }
    ensures clean { AreClean D.Disk one.new two.new → AreClean D.Disk one.old two.old }
    ensures added { OnOk result (AreClean D.Disk one.new two.new → (image before : List ℕ)
        → Means (D.Disk.seen one.old) (D.Disk.seen two.old) kept.old.role kept.old image before
        → Means (D.Disk.seen one.new) (D.Disk.seen two.new) kept.new.role kept.new image (before ++ commands.now)) }
    ensures any_return { AreClean D.Disk one.new two.new → (image before : List ℕ)
        → Means (D.Disk.seen one.old) (D.Disk.seen two.old) kept.old.role kept.old image before
        → (c d : List ℕ) → D.Disk.may_leave one.new c → D.Disk.may_leave two.new d → KeepsEither c d image before image (before ++ commands.now) }
    ensures failed { IfErr result (CountsFailedIn (D.Disk.faults one.old) (D.Disk.faults one.new) (D.Disk.faults two.old) (D.Disk.faults two.new)) }
    ensures mixes { AlwaysMixes D.Disk → result ≢ Err (Disk DoesNotMix) }
    ensures too_large { result ≡ Err (Disk TooLarge) → (2 ^ 40 < kept.old.place.room) ⊎ (2 ^ 40 < length commands.now + 17) }
{
    match kept.role {
        Role::First => append_to(alloc, kept, one, two, commands)?,
        Role::Second => append_to(alloc, kept, two, one, commands)?,
    }
    Ok(())
}

/// Writes the file that doesn't count anew, with this image and no commands: from then on it counts. At any return a crash leaves what
/// was kept, or this image. After an `Err` open the files again.
pub fn checkpoint<D: Disk>(
    alloc: Global,
    kept: &mut Kept,
    one: &mut D,
    two: &mut D,
    image: &[u8],
) -> Result<(), FilesError>
    requires held { IsHeld D.Disk one.old two.old kept.old.role kept.old }
    requires few { length image.now < 2 ^ 61 }
    ensures held { OnOk result (IsHeld D.Disk one.new two.new kept.new.role kept.new) }
    ensures clean { AreClean D.Disk one.new two.new → AreClean D.Disk one.old two.old }
    ensures renewed { OnOk result (Means (D.Disk.seen one.new) (D.Disk.seen two.new) kept.new.role kept.new image.now []) }
    ensures any_return { AreClean D.Disk one.new two.new → (before commands : List ℕ)
        → Means (D.Disk.seen one.old) (D.Disk.seen two.old) kept.old.role kept.old before commands
        → (c d : List ℕ) → D.Disk.may_leave one.new c → D.Disk.may_leave two.new d → KeepsEither c d before commands image.now [] }
    ensures failed { IfErr result (CountsFailedIn (D.Disk.faults one.old) (D.Disk.faults one.new) (D.Disk.faults two.old) (D.Disk.faults two.new)) }
    ensures mixes { AlwaysMixes D.Disk → result ≢ Err (Disk DoesNotMix) }
    ensures too_large { result ≡ Err (Disk TooLarge) → 2 ^ 62 ≤ kept.old.generation }
{
    *kept = match kept.role {
        Role::First => renew(alloc, *kept, one, two, Role::Second, image)?,
        Role::Second => renew(alloc, *kept, two, one, Role::First, image)?,
    };
    Ok(())
}
