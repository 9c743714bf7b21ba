//! The head of a file: its gate, its generation, the image's length and its digest.

ghost use Rattle.std.specs.Prelude.{◌≡◌, ◌≢◌, ◌++◌, ◌<◌, ◌≤◌, ◌^◌, ℕ, List, length, take, Err, IfOk, IfErr, IsTrue};
ghost use Rattle.pst_kept_text.specs.declared.error.DiskError.TheVariants.{DoesNotMix, TooLarge, Memory};
ghost use Rattle.std.specs.Int.{w64, from_be_bytes, to_be_bytes};
ghost use Rattle.pst_kept_text.specs.Written.{OnlyReads};
ghost use Rattle.pst_kept_text.specs.Causes.{CountsFailed, AlwaysMixes};
ghost use Rattle.pst_kept_files.specs.Standing.{generation_in, role_of, head_of};

use crate::Role;
use pst_kept_text::DiskError;
use sqlite_disk::Disk;
use std::alloc::Global;

/// How many bytes stand before the image.
pub const HEAD: usize = 49;

/// How many of them the gate, the generation and the length take.
const FRONT: usize = 17;

/// What a file says of itself: how many bytes it has and, if it counts, its generation.
#[derive(Clone, Copy)]
pub struct Glance {
    pub len: usize,
    pub generation: Option<u64>,
}

/// The number of eight bytes, the highest first.
pub fn number(bytes: &[u8]) -> u64
    requires { length bytes.now ≡ 8 }
    ensures { result ≡ from_be_bytes w64 bytes.now }
{
    let n = bytes;
    u64::from_be_bytes([n[0], n[1], n[2], n[3], n[4], n[5], n[6], n[7]])
}

/// The generation of a file that counts, by its first 17 bytes and its length.
fn generation_of(front: &[u8; FRONT], len: usize) -> Option<u64>
    requires { 49 ≤ len }
    ensures { (file : List ℕ) → front.now ≡ take 17 file → len ≡ length file → result ≡ generation_in file }
{
    if front[0] != 1 {
        return None;
    }
    if number(&front[9..17]) > (len - HEAD) as u64 {
        return None;
    }
    Some(number(&front[1..9]))
}

/// Looks at the front of a file.
pub fn look<D: Disk>(disk: &mut D) -> Result<Glance, DiskError>
    requires usable { IsTrue (D.Disk.is_usable disk.old) }
    ensures len { IfOk result (λ it. IsTrue (D.Disk.is_clean disk.new) → it.len ≡ length (D.Disk.seen disk.old)) }
    ensures generation { IfOk result (λ it. IsTrue (D.Disk.is_clean disk.new) → it.generation ≡ generation_in (D.Disk.seen disk.old)) }
    ensures reads { OnlyReads D.Disk disk.old disk.new }
    ensures failed { CountsFailed result (D.Disk.faults disk.old) (D.Disk.faults disk.new) }
    ensures mixes { AlwaysMixes D.Disk → result ≢ Err DoesNotMix }
    ensures not_large { result ≢ Err TooLarge }
{
    let len = disk.len()?;
    if len < HEAD {
        return Ok(Glance {
            len,
            generation: None,
        });
    }
    let mut front = [0; FRONT];
    disk.read_at(0, &mut front)?;
    Ok(Glance {
        len,
        generation: generation_of(&front, len),
    })
}

/// Which of two files counts: the one of the later generation.
pub fn which(one: Option<u64>, two: Option<u64>) -> Option<Role>
    ensures { result ≡ role_of one two }
{
    match (one, two) {
        (None, None) => None,
        (Some(_), None) => Some(Role::First),
        (None, Some(_)) => Some(Role::Second),
        (Some(one), Some(two)) => {
            if one < two {
                Some(Role::Second)
            } else if two < one {
                Some(Role::First)
            } else {
                None
            }
        }
    }
}

/// What stands between the gate and the image.
pub fn head(
    alloc: Global,
    generation: u64,
    len: usize,
    digest: &[u8; 32],
) -> Result<Vec<u8>, DiskError>
    ensures head { IfOk result (λ head. head.items ≡ head_of generation len digest.now) }
    ensures memory { IfErr result (λ e. e ≡ Memory) }
{
    let mut head = Vec::new(alloc);
    if head.extend_from_slice(&generation.to_be_bytes()).is_err()
        || head.extend_from_slice(&(len as u64).to_be_bytes()).is_err()
        || head.extend_from_slice(digest).is_err()
    {
        return Err(DiskError::Memory);
    }
    Ok(head)
}
