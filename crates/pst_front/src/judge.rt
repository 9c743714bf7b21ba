//! The verdict on the text of a program.

ghost use Rattle.std.specs.Prelude.{◌≡◌, ◌+◌, ◌<◌, ◌^◌, length, IfOk, MatchResult};
ghost use Rattle.pst_grammar.specs.View.{text_of};
ghost use Rattle.pst_program.specs.View.{routines_of};
ghost use Rattle.pst_program.specs.Typed.{IsTyped};
ghost use Rattle.pst_typing.specs.View.{program_of};
ghost use Rattle.pst_grammar.specs.Grammar.{HasTree};
ghost use Rattle.pst_front.specs.Verdict.{HasProgram, IsNoProgram};

use crate::fault::{Fault, FaultKind};
use pst_base::NoMemory;
use pst_grammar::Tree;
use pst_lex::{LexFault, find_fault};
use pst_parse::{ParseFault, parse};
use pst_program::Program;
use pst_types::check;
use pst_typing::TypeFault;
use std::alloc::Global;

/// Why a text gives no program.
#[derive(Clone, Copy, PartialEq, Eq)]
pub enum NoProgram {
    /// It has this fault.
    Fault(Fault),
    /// There was no memory.
    Memory,
}

impl NoProgram {
    fn at(kind: FaultKind, line: u32) -> NoProgram
        ensures { result ≡ NoProgram.Fault (record { kind = kind; line = line }) }
    {
        NoProgram::Fault(Fault { kind, line })
    }
}

impl From<LexFault> for NoProgram {
    ghost use Rattle.pst_front.specs.Reasons.{of_lexing};

    ghost from_gives = { λ fault why. why ≡ of_lexing fault };

    fn from(fault: LexFault) -> NoProgram {
        match fault {
            LexFault::Byte { line } => NoProgram::at(FaultKind::Byte, line),
            LexFault::Number { line } => NoProgram::at(FaultKind::Number, line),
            LexFault::NameLength { line } => NoProgram::at(FaultKind::NameLength, line),
        }
    }
}

impl From<ParseFault> for NoProgram {
    ghost use Rattle.pst_front.specs.Reasons.{of_parsing};

    ghost from_gives = { λ fault why. why ≡ of_parsing fault };

    fn from(fault: ParseFault) -> NoProgram {
        match fault {
            ParseFault::Unexpected { line } => NoProgram::at(FaultKind::Unexpected, line),
            ParseFault::TooDeep { line } => NoProgram::at(FaultKind::TooDeep, line),
            ParseFault::Memory => NoProgram::Memory,
        }
    }
}

impl From<TypeFault> for NoProgram {
    ghost use Rattle.pst_front.specs.Reasons.{of_typing};

    ghost from_gives = { λ fault why. why ≡ of_typing fault };

    fn from(fault: TypeFault) -> NoProgram {
        match fault {
            TypeFault::Unknown { line } => NoProgram::at(FaultKind::Unknown, line),
            TypeFault::Duplicate { line } => NoProgram::at(FaultKind::Duplicate, line),
            TypeFault::Mismatch { line } => NoProgram::at(FaultKind::Mismatch, line),
            TypeFault::Limit { line } => NoProgram::at(FaultKind::Limit, line),
            TypeFault::TooMany { line } => NoProgram::at(FaultKind::TooMany, line),
            TypeFault::QueryWrites { line } => NoProgram::at(FaultKind::QueryWrites, line),
            TypeFault::Memory => NoProgram::Memory,
        }
    }
}

impl From<NoMemory> for NoProgram {
    ghost use Rattle.pst_front.specs.declared.judge.NoProgram.TheVariants.{Memory};

    ghost from_gives = { λ _ why. why ≡ Memory };

    fn from(_: NoMemory) -> NoProgram {
        NoProgram::Memory
    }
}

/// The tree of a text of fewer than 4,294,967,295 bytes. A lexical fault anywhere comes first, so where there is no tree the whole
/// text is looked at for one. It is let go once the tree is there.
///
/// # Errors
/// The first fault of lexer or parser, or want of memory.
pub(crate) fn read_tree(alloc: Global, text: Vec<u8>) -> Result<Tree, NoProgram>
    requires { length text.items + 1 < 2 ^ 32 }
    ensures { MatchResult result (λ tree. HasTree text.items (text_of tree)) (λ why. IsNoProgram text.items why) }
{
    match parse(alloc, &text) {
        Ok(tree) => Ok(tree),
        Err(fault) => {
            find_fault(&text)?;
            Err(fault.into())
        }
    }
}

/// The typed program of a text of fewer than 4,294,967,295 bytes. The text is let go once its tree is there, and the tree as it
/// is typed.
///
/// # Errors
/// The first fault of the text, or want of memory.
pub fn program_of(alloc: Global, text: Vec<u8>) -> Result<Program, NoProgram>
    requires { length text.items + 1 < 2 ^ 32 }
    ensures verdict { MatchResult result (λ p. HasProgram text.items (program_of p)) (λ why. IsNoProgram text.items why) }
    ensures typed { IfOk result (λ p. IsTyped (routines_of p)) }
{
    let tree = read_tree(alloc, text)?;
    Ok(check(alloc, tree)?)
}
