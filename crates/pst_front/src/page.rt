//! What is printed of a program.

ghost use Rattle.std.specs.Prelude.{◌≡◌, ◌+◌, ◌<◌, ◌^◌, length, IfOk, MatchResult};
ghost use Rattle.pst_typing.specs.View.{program_of as typed_program};
ghost use Rattle.pst_program.specs.View.{routines_of};
ghost use Rattle.pst_program.specs.Typed.{IsTyped};
ghost use Rattle.pst_translation.specs.Compiled.{code_of};
ghost use Rattle.pst_listing.specs.Listing.{listed};
ghost use Rattle.pst_front.specs.Pages.{IsPage, IsCanonical};
ghost use Rattle.pst_front.specs.Verdict.{IsNoProgram};

use crate::judge::{NoProgram, program_of, read_tree};
use pst_base::{NoMemory, Text};
use pst_codegen::compile;
use pst_listing::listing;
use pst_notation::print_program;
use pst_program::Program;
use pst_types::{approve, check};
use std::alloc::Global;

/// What is printed of a program.
#[derive(Clone, Copy, PartialEq, Eq)]
pub enum Page {
    /// Its canonical text.
    Canonical,
    /// The listing of its code.
    Listing,
}

/// The listing of the code of a program.
fn listing_of(alloc: Global, program: &Program) -> Result<Text, NoMemory>
    requires { IsTyped (routines_of program.now) }
    ensures { IfOk result (λ text. text ≡ listed (code_of (routines_of program.now)) program.now.names) }
{
    let code = compile(alloc, program)?;
    listing(alloc, &code, program)
}

/// The typed program of a text of fewer than 4,294,967,295 bytes, and its canonical text. The text is printed before the types are
/// checked, since the check lets the tree go, and is an answer only if they are right.
///
/// # Errors
/// The first fault of the text, or want of memory.
pub fn canonical_program(alloc: Global, text: Vec<u8>) -> Result<(Text, Program), NoProgram>
    requires { length text.items + 1 < 2 ^ 32 }
    ensures verdict { MatchResult result (λ p. IsCanonical text.items (typed_program p.1) p.0) (λ why. IsNoProgram text.items why) }
    ensures typed { IfOk result (λ p. IsTyped (routines_of p.1)) }
{
    let tree = read_tree(alloc, text)?;
    let printed = print_program(alloc, &tree)?;
    let program = check(alloc, tree)?;
    Ok((printed, program))
}

/// The canonical text of the program of a text of fewer than 4,294,967,295 bytes.
fn canonical_of(alloc: Global, text: Vec<u8>) -> Result<Text, NoProgram>
    requires { length text.items + 1 < 2 ^ 32 }
    ensures { MatchResult result (λ out. IsPage Page.Canonical text.items out) (λ why. IsNoProgram text.items why) }
{
    let tree = read_tree(alloc, text)?;
    approve(alloc, &tree)?;
    Ok(print_program(alloc, &tree)?)
}

/// A page of the program of a text of fewer than 4,294,967,295 bytes.
///
/// # Errors
/// The first fault of the text, or want of memory.
pub fn page_of(alloc: Global, page: Page, text: Vec<u8>) -> Result<Text, NoProgram>
    requires { length text.items + 1 < 2 ^ 32 }
    ensures { MatchResult result (λ out. IsPage page text.items out) (λ why. IsNoProgram text.items why) }
{
    match page {
        Page::Canonical => canonical_of(alloc, text),
        Page::Listing => {
            let program = program_of(alloc, text)?;
            Ok(listing_of(alloc, &program)?)
        }
    }
}
