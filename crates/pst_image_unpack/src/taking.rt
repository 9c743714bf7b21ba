//! Images taken.

ghost use Rattle.std.specs.Prelude.{◌≡◌, ◌<◌, ◌^◌, [], Err, IfOk, IfSome, MatchOption, None, length, true, false};
ghost use Rattle.pst_store.specs.Whole.{queue_in};
ghost use Rattle.pst_program.specs.View.{routines_of};
ghost use Rattle.pst_program.specs.Typed.{IsTyped};
ghost use Rattle.pst_typing.specs.View.{program_of};
ghost use Rattle.pst_typing.specs.Declarations.{NamedProgram};
ghost use Rattle.pst_image_form.specs.declared.parts.ImageParts.{ImageParts};
ghost use Rattle.pst_image_form.specs.Bytes.{HasForm};
ghost use Rattle.pst_image_rules.specs.declared.rule.Rule.{Rule};
ghost use Rattle.pst_image_rules.specs.Rules.{IsJudged};
ghost use Rattle.pst_image_unpack.specs.declared.fault.ImageFault.TheVariants.{Bad};
ghost use Rattle.pst_image_unpack.specs.Unpacked.{IsOwnText, IsTaken, FailsIn, FailsFirst};

use crate::building::rebuild;
use crate::fault::ImageFault;
use pst_base::{NoMemory, RunNo, Text};
use pst_front::{NoProgram, canonical_program};
use pst_image_form::{FormFault, Image, ImageParts, read_image};
use pst_image_rules::{Rule, first_failed};
use pst_order::Walked;
use pst_program::Program;
use pst_store::StoreOf;
use pst_store_arena::Listed;
use std::alloc::Global;

/// What an image tells of.
#[derive(Drop)]
pub struct Unpacked<O: Walked + Drop, N: Listed> {
    /// The program.
    pub program: Program,
    /// Its canonical text, which is that of the image.
    pub text: Text,
    /// The store.
    pub store: StoreOf<O, N>,
    /// The number that the next run gets.
    pub next_run: RunNo,
    /// How many charges a run is granted.
    pub budget: u32,
    /// How many bytes the image takes.
    pub length: usize,
}

/// Whether two texts are the same.
fn is_same(one: &[u8], other: &[u8]) -> bool
    ensures same { result ≡ true → one.now ≡ other.now }
    ensures differs { result ≡ false → one.now ≡ other.now → ⊥ }
{
    one == other
}

/// The program of which a text is the canonical one, or None where there is no such program.
fn program_of_own_text(alloc: Global, text: &[u8]) -> Result<Option<Program>, NoMemory>
    ensures found { IfOk result (λ found. MatchOption found ((named : NamedProgram) → IsOwnText text.now named → ⊥) (λ program. IsOwnText text.now (program_of program))) }
    ensures typed { IfOk result (λ found. IfSome found (λ program. IsTyped (routines_of program))) }
{
    if u32::MAX as usize <= text.len() {
        return Ok(None);
    }
    match canonical_program(alloc, Vec::from_slice(alloc, text)?) {
        Err(NoProgram::Memory) => Err(NoMemory),
        Err(NoProgram::Fault(_)) => Ok(None),
        Ok((canonical, program)) => {
            if is_same(canonical.as_slice(), text) {
                Ok(Some(program))
            } else {
                Ok(None)
            }
        }
    }
}

/// The image at the front of the bytes.
fn image_at(alloc: Global, bytes: &[u8]) -> Result<Image, ImageFault>
    ensures form { IfOk result (λ image. HasForm bytes.now image.parts image.length) }
    ensures bad { (rule : Rule) → result ≡ Err (Bad rule) → FailsFirst bytes.now rule }
{
    match read_image(alloc, bytes) {
        Ok(image) => Ok(image),
        Err(FormFault::Form) => Err(ImageFault::Bad(Rule::Form)),
        Err(FormFault::Memory) => Err(ImageFault::Memory),
    }
}

/// The program of the parts of an image, where all rules hold.
fn judged_program(alloc: Global, parts: &ImageParts) -> Result<Program, ImageFault>
    requires few { length parts.now.versions < 2 ^ 32 }
    ensures text { IfOk result (λ program. IsOwnText parts.now.text (program_of program)) }
    ensures rules { IfOk result (λ program. IsJudged program.shape parts.now None) }
    ensures typed { IfOk result (λ program. IsTyped (routines_of program)) }
    ensures bad { (rule : Rule) → result ≡ Err (Bad rule) → FailsIn parts.now rule }
{
    let Some(program) = program_of_own_text(alloc, parts.text.as_slice())? else {
        return Err(ImageFault::Bad(Rule::Text));
    };
    match first_failed(alloc, &program.shape, parts)? {
        Some(rule) => Err(ImageFault::Bad(rule)),
        None => Ok(program),
    }
}

/// Takes the image at the front of the bytes; others may follow it.
///
/// `Bad` comes exactly where a rule fails, with the first one that does. It takes the time of the rules and that by the image's length.
///
/// # Errors
/// The first rule that fails, or that there was no memory.
pub fn unpack<O: Walked + Drop, N: Listed>(
    alloc: Global,
    bytes: &[u8],
) -> Result<Unpacked<O, N>, ImageFault>
    ensures taken { IfOk result (λ u. IsTaken u.program u.text u.store u.next_run u.budget u.length bytes.now) }
    ensures typed { IfOk result (λ u. IsTyped (routines_of u.program)) }
    ensures rested { IfOk result (λ u. queue_in u.store ≡ []) }
    ensures bad { (rule : Rule) → result ≡ Err (Bad rule) → FailsFirst bytes.now rule }
{
    let Image { parts, length } = image_at(alloc, bytes)?;
    let program = judged_program(alloc, &parts)?;
    Ok(Unpacked {
        store: rebuild(alloc, &program.shape, &parts)?,
        program,
        next_run: parts.next_run,
        budget: parts.budget,
        length,
        text: parts.text,
    })
}
