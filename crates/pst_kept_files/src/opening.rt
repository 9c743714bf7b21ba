//! Opening two files that a crash may have left.

ghost use Rattle.std.specs.Prelude.{◌≡◌, ◌≢◌, ◌⊎◌, ◌+◌, ◌-◌, ◌<◌, ◌≤◌, ◌^◌, List, ℕ, length, take, drop, Some, None, Err, IfOk, IfErr, IfSome, IsTrue};
ghost use Rattle.std.specs.Int.{w64, from_be_bytes};
ghost use Rattle.sqlite_disk.specs.Disk.{Only};
ghost use Rattle.pst_kept_text.specs.Written.{OnlyReads};
ghost use Rattle.pst_kept_text.specs.Causes.{AlwaysMixes};
ghost use Rattle.pst_kept_text.specs.declared.error.DiskError.TheVariants.{DoesNotMix};
ghost use Rattle.pst_kept_files.specs.declared.error.FilesError.TheVariants.{Disk};
ghost use Rattle.pst_kept_files.specs.Standing.{standing, content, base_of, number};
ghost use Rattle.pst_kept_files.specs.Kept.{AreClean, Holds, IsHeld, IsHeldBy, Keeps, Means, MeansBy, CountsFailedIn};
ghost use Rattle.pst_kept_files.specs.Opening.{BeginsAt, CountsOver, IsJudged, IsMisjudged, IsRefused, AreUntouched, image_in};

use crate::checks::{UnsealError, letters_of, unseal};
use crate::head::{HEAD, look, number, which};
use crate::stage::shut;
use crate::{FilesError, Kept, Role};
use pst_kept_text::{DiskError, Place, clear, is_torn_end, read_all, whole_len};
use sha2::{Digest, Sha256};
use sqlite_disk::Disk;
use std::alloc::Global;

/// The most bytes of a file that is opened.
const MOST: usize = 1 << 61;

/// A store that was opened.
#[derive(Drop)]
pub struct Opened {
    /// What the session knows of its files.
    pub kept: Kept,
    /// The commands that are kept behind the image, one behind the other.
    pub commands: Vec<u8>,
    /// The file up to the end of the image.
    pub(crate) front: Vec<u8>,
}

impl Opened {
    ghost use Rattle.std.specs.Prelude.{◌≡◌};
    ghost use Rattle.pst_kept_files.specs.Opening.{image_in};

    /// The image.
    pub fn image(&self) -> &[u8]
        ensures { result.now ≡ image_in self.now }
    {
        let begin = HEAD.min(self.front.len());
        &self.front[begin..]
    }
}

/// What was found in a file that counts.
#[derive(Drop)]
struct Judged {
    place: Place,
    generation: u64,
    check: [u8; 16],
    commands: Vec<u8>,
}

/// Where the text of a file that counts begins. None where it doesn't count.
fn base_in(bytes: &[u8]) -> Option<usize>
    ensures some { IfSome result (BeginsAt bytes.now) }
    ensures none { result ≡ None → standing bytes.now ≡ None }
{
    if bytes.len() < HEAD {
        return None;
    }
    if bytes[0] != 1 {
        return None;
    }
    let size = number(&bytes[9..17]);
    if size > (bytes.len() - HEAD) as u64 {
        return None;
    }
    Some(HEAD + size as usize)
}

/// Judges a file that was read: its image's digest, the end of its text, and its groups' checks.
fn judge(alloc: Global, bytes: &[u8]) -> Result<Judged, FilesError>
    ensures judged { IfOk result (IsJudged bytes.now) }
    ensures refused { IfErr result (λ e. IsMisjudged e bytes.now) }
{
    let Some(base) = base_in(bytes) else {
        return Err(FilesError::NoneCounts);
    };
    if bytes.len() > MOST {
        return Err(FilesError::Disk(DiskError::TooLarge));
    }
    let digest = Sha256::digest(&bytes[HEAD..base]);
    if digest.as_slice() != &bytes[17..HEAD] {
        return Err(FilesError::DamagedImage);
    }
    let text = &bytes[base..];
    let count = whole_len(text);
    if !is_torn_end(&text[count..]) {
        return Err(FilesError::DamagedEnd);
    }
    match unseal(alloc, letters_of(&digest), &text[..count]) {
        Ok(unsealed) => {
            let check = unsealed.check;
            Ok(Judged {
                place: Place {
                    base,
                    end: base + count,
                    room: bytes.len(),
                },
                generation: number(&bytes[1..9]),
                check,
                commands: unsealed.commands,
            })
        }
        Err(UnsealError::Damaged) => Err(FilesError::DamagedGroup),
        Err(UnsealError::Memory) => Err(FilesError::Disk(DiskError::Memory)),
    }
}

/// Opens the file that counts, and shuts the other.
fn open_as<D: Disk>(
    alloc: Global,
    counting: &mut D,
    other: &mut D,
    role: Role,
) -> Result<Opened, FilesError>
    requires usable { IsTrue (D.Disk.is_usable counting.old) }
    requires other_usable { IsTrue (D.Disk.is_usable other.old) }
    requires durable { Only (D.Disk.seen counting.old) (D.Disk.may_leave counting.old) }
    requires other_durable { Only (D.Disk.seen other.old) (D.Disk.may_leave other.old) }
    ensures held { IfOk result (λ it. IsHeldBy D.Disk counting.new other.new it.kept) }
    ensures role { IfOk result (λ it. it.kept.role ≡ role) }
    ensures clean { AreClean D.Disk counting.new other.new → AreClean D.Disk counting.old other.old }
    ensures opened { IfOk result (λ it. AreClean D.Disk counting.new other.new → CountsOver (D.Disk.seen counting.old) (D.Disk.seen other.old)
        → Keeps (D.Disk.seen counting.old) (D.Disk.seen other.old) (image_in it) it.commands.items
        × MeansBy (D.Disk.seen counting.new) (D.Disk.seen other.new) it.kept (image_in it) it.commands.items) }
    ensures any_return { AreClean D.Disk counting.new other.new → CountsOver (D.Disk.seen counting.old) (D.Disk.seen other.old) → (image commands : List ℕ)
        → Keeps (D.Disk.seen counting.old) (D.Disk.seen other.old) image commands
        → (c d : List ℕ) → D.Disk.may_leave counting.new c → D.Disk.may_leave other.new d → Keeps c d image commands }
    ensures refused { IfErr result (λ e. AreClean D.Disk counting.new other.new → CountsOver (D.Disk.seen counting.old) (D.Disk.seen other.old)
        → IsRefused e (D.Disk.seen counting.old) (D.Disk.seen other.old)) }
    ensures unchanged { IfErr result (λ e. AreUntouched D.Disk e counting.old counting.new other.old other.new) }
    ensures failed { IfErr result (CountsFailedIn (D.Disk.faults counting.old) (D.Disk.faults counting.new) (D.Disk.faults other.old) (D.Disk.faults other.new)) }
    ensures mixes { AlwaysMixes D.Disk → result ≢ Err (Disk DoesNotMix) }
{
    let mut bytes = read_all(alloc, counting)?;
    let judged = match judge(alloc, &bytes) {
        Ok(judged) => judged,
        Err(refusal) => return Err(refusal),
    };
    shut(other)?;
    clear(alloc, counting, judged.place)?;
    bytes.truncate(judged.place.base);
    let check = judged.check;
    Ok(Opened {
        kept: Kept {
            role,
            place: judged.place,
            generation: judged.generation,
            check,
        },
        commands: judged.commands,
        front: bytes,
    })
}

/// Opens two files that a crash may have left: finds the one that counts, judges it, and clears what the crash left. It answers the image
/// and the commands that are kept. At any return a crash leaves two files that keep the same. Files that are refused stay as they were.
pub fn open<D: Disk>(alloc: Global, one: &mut D, two: &mut D) -> Result<Opened, FilesError>
    requires usable { IsTrue (D.Disk.is_usable one.old) }
    requires two_usable { IsTrue (D.Disk.is_usable two.old) }
    requires durable { Only (D.Disk.seen one.old) (D.Disk.may_leave one.old) }
    requires two_durable { Only (D.Disk.seen two.old) (D.Disk.may_leave two.old) }
    ensures held { IfOk result (λ it. IsHeld D.Disk one.new two.new it.kept.role it.kept) }
    ensures clean { AreClean D.Disk one.new two.new → AreClean D.Disk one.old two.old }
    ensures opened { IfOk result (λ it. AreClean D.Disk one.new two.new → Keeps (D.Disk.seen one.old) (D.Disk.seen two.old) (image_in it) it.commands.items) }
    ensures means { IfOk result (λ it. AreClean D.Disk one.new two.new → Means (D.Disk.seen one.new) (D.Disk.seen two.new) it.kept.role it.kept (image_in it) it.commands.items) }
    ensures any_return { AreClean D.Disk one.new two.new → (image commands : List ℕ)
        → Keeps (D.Disk.seen one.old) (D.Disk.seen two.old) image commands
        → (c d : List ℕ) → D.Disk.may_leave one.new c → D.Disk.may_leave two.new d → Keeps c d image commands }
    ensures refused { IfErr result (λ e. AreClean D.Disk one.new two.new → IsRefused e (D.Disk.seen one.old) (D.Disk.seen two.old)) }
    ensures unchanged { IfErr result (λ e. AreUntouched D.Disk e one.old one.new two.old two.new) }
    ensures failed { IfErr result (CountsFailedIn (D.Disk.faults one.old) (D.Disk.faults one.new) (D.Disk.faults two.old) (D.Disk.faults two.new)) }
    ensures mixes { AlwaysMixes D.Disk → result ≢ Err (Disk DoesNotMix) }
{
    let first = look(one)?;
    let second = look(two)?;
    if first.len <= 1 && second.len <= 1 {
        return Err(FilesError::Empty);
    }
    match which(first.generation, second.generation) {
        None => Err(FilesError::NoneCounts),
        Some(Role::First) => open_as(alloc, one, two, Role::First),
        Some(Role::Second) => open_as(alloc, two, one, Role::Second),
    }
}
