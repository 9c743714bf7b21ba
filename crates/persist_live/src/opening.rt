//! A session is made, of a text or of an image.

ghost use Rattle.std.specs.Prelude.{◌≡◌, ◌+◌, ◌<◌, ◌^◌, [], length, Err, IfErr, IfOk};
ghost use Rattle.pst_program.specs.View.{routines_of};
ghost use Rattle.pst_program.specs.Typed.{IsTyped};
ghost use Rattle.pst_store.specs.Whole.{queue_in};
ghost use Rattle.pst_front.specs.Verdict.{IsNoProgram};
ghost use Rattle.pst_image_unpack.specs.Unpacked.{FailsFirst, IsTaken};
ghost use Rattle.pst_image_unpack.specs.declared.fault.ImageFault.TheVariants.{Bad};
ghost use Rattle.pst_image_rules.specs.declared.rule.Rule.{Rule};
ghost use Rattle.persist_live.specs.Opening.{Opens, Resumes};

use crate::live::Live;
use pst_cli_scripts::Session;
use pst_cli_serving::Running;
use pst_front::{NoProgram, canonical_program};
use pst_image_unpack::{ImageFault, Unpacked, unpack};
use pst_order::LabelOrder;
use pst_store::Store;
use pst_store_arena::Arena;
use std::alloc::Global;

/// The session over a store that was taken from an image of these bytes.
fn over(
    alloc: Global,
    unpacked: Unpacked<LabelOrder, Arena>,
    bytes: &[u8],
) -> Result<Live, ImageFault>
    requires taken { IsTaken unpacked.program unpacked.text unpacked.store unpacked.next_run unpacked.budget unpacked.length bytes.now }
    requires typed { IsTyped (routines_of unpacked.program) }
    requires rested { queue_in unpacked.store ≡ [] }
    ensures resumes { IfOk result (λ live. Resumes bytes.now live unpacked.length) }
    ensures memory { (rule : Rule) → result ≡ Err (Bad rule) → ⊥ }
{
    let Unpacked {
        program,
        text,
        store,
        next_run,
        budget,
        length: _,
    } = unpacked;
    store.whole();
    let Ok(session) = Running::over(alloc, program, &store, next_run, budget) else {
        return Err(ImageFault::Memory);
    };
    Ok(Live {
        session,
        store,
        text,
        reply: None,
        said: Vec::new(alloc),
    })
}

impl Live {
    /// The session of the program with a text of fewer than 4,294,967,295 bytes, before the first command.
    ///
    /// # Errors
    /// The first fault of the text, or want of memory.
    pub fn open(alloc: Global, text: Vec<u8>) -> Result<Live, NoProgram>
        requires { length text.items + 1 < 2 ^ 32 }
        ensures opens { IfOk result (Opens text.items) }
        ensures refused { IfErr result (IsNoProgram text.items) }
    {
        let (canonical, program) = canonical_program(alloc, text)?;
        let mut store: Store = Store::empty();
        match Running::begin(alloc, program, &mut store) {
            Err(_) => Err(NoProgram::Memory),
            Ok(session) => Ok(Live {
                session,
                store,
                text: canonical,
                reply: None,
                said: Vec::new(alloc),
            }),
        }
    }

    /// The session that goes on from the image at the front of the bytes, and how many bytes the image has.
    ///
    /// # Errors
    /// The first rule that fails, or want of memory.
    pub fn resume(alloc: Global, bytes: &[u8]) -> Result<(Live, usize), ImageFault>
        ensures resumes { IfOk result (λ r. Resumes bytes.now r.0 r.1) }
        ensures refused { (rule : Rule) → result ≡ Err (Bad rule) → FailsFirst bytes.now rule }
    {
        let unpacked = unpack(alloc, bytes)?;
        let length = unpacked.length;
        Ok((over(alloc, unpacked, bytes)?, length))
    }
}
