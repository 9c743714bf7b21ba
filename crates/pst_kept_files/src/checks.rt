//! The checks in a text: damage of a group is found by them. No clause on crashes rests on them.

ghost use Rattle.std.specs.Prelude.{◌≡◌, ◌∷◌, [], List, ℕ, ◌++◌, IfOk, IfErr, IfSome, IsNone, IsErrOf};
ghost use Rattle.sha2.specs.Sha256.{sha256};
ghost use Rattle.pst_kept_text.specs.Text.{whole, IsPlain};
ghost use Rattle.pst_kept_files.specs.Checks.{letters, check as check_of, sealed as sealed_of, text_of, ArePlain, IsSealed};
ghost use Rattle.pst_kept_text.specs.declared.error.DiskError.TheVariants.{Memory};
ghost use Rattle.pst_kept_files.specs.declared.checks.UnsealError.TheVariants.{Damaged};

use pst_kept_text::{DiskError, END};
use sha2::{Digest, Sha256};
use std::alloc::Global;

/// How many letters a check has.
const LETTERS: usize = 16;

/// The bodies of the groups of a text, one behind the other, and the last check.
#[derive(Drop)]
pub struct Unsealed {
    pub commands: Vec<u8>,
    pub check: [u8; 16],
}

/// Why the groups of a text could not be told.
#[derive(Debug, Drop)]
pub enum UnsealError {
    /// The check of a group is another.
    Damaged,
    /// There was no memory.
    Memory,
}

/// Six bits of each of the first 16 bytes of a digest, as letters.
pub fn letters_of(digest: &[u8; 32]) -> [u8; 16]
    ensures { result ≡ letters digest.now }
{
    let mut letters = [0; LETTERS];
    for i in 0..LETTERS {
        letters[i] = b'0' + digest[i] % 64;
    }
    letters
}

/// The check of a body, behind another.
pub fn check(before: &[u8; 16], body: &[u8]) -> [u8; 16]
    ensures { result ≡ check_of before.now body.now }
{
    let mut hasher = Sha256::new();
    hasher.update(before);
    hasher.update(body);
    letters_of(&hasher.finalize())
}

/// A group: a body, its check, and the end.
pub fn sealed(alloc: Global, body: &[u8], check: &[u8; 16]) -> Result<Vec<u8>, DiskError>
    ensures group { IfOk result (λ group. group.items ≡ body.now ++ check.now ++ 30 ∷ []) }
    ensures memory { IfErr result (λ e. e ≡ Memory) }
{
    let mut group = Vec::new(alloc);
    if group.extend_from_slice(body).is_err()
        || group.extend_from_slice(check).is_err()
        || group.push(END).is_err()
    {
        return Err(DiskError::Memory);
    }
    Ok(group)
}

/// The body of a group, if its check is right; `before` is the check of the group before it, and then of this one.
fn unsealed_body<'a>(before: &mut [u8; 16], group: &'a [u8]) -> Option<&'a [u8]>
    ensures some { IfSome result (λ body. (group.now ≡ body.now ++ before.new) × (before.new ≡ check_of before.old body.now)) }
    ensures none { IsNone result → (body : List ℕ) → group.now ≡ body ++ check_of before.old body → ⊥ }
{
    if group.len() < LETTERS {
        return None;
    }
    let (body, told) = group.split_at(group.len() - LETTERS);
    let next = check(before, body);
    if told != next.as_slice() {
        return None;
    }
    *before = next;
    Some(body)
}

/// The bodies of a text of whole groups.
pub fn unseal(alloc: Global, first: [u8; 16], text: &[u8]) -> Result<Unsealed, UnsealError>
    requires whole { whole text.now ≡ text.now }
    ensures sealed { IfOk result (λ it. IsSealed first text.now it.commands.items it.check) }
    ensures damaged { IsErrOf result Damaged → (bodies : List (List ℕ)) → ArePlain bodies → text.now ≡ text_of first bodies → ⊥ }
{
    let mut commands = Vec::new(alloc);
    let mut check = first;
    let mut begin = 0;
    for (i, byte) in text.iter().enumerate() {
        if *byte == END {
            let Some(body) = unsealed_body(&mut check, &text[begin..i]) else {
                return Err(UnsealError::Damaged);
            };
            if commands.extend_from_slice(body).is_err() {
                return Err(UnsealError::Memory);
            }
            begin = i + 1;
        }
    }
    Ok(Unsealed { commands, check })
}
