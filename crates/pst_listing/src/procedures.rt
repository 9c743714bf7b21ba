//! The listing: procedures with their head lines.

ghost use Rattle.std.specs.Prelude.{◌≡◌, ◌++◌, OnOk, IfOk, codes};
ghost use Rattle.std.specs.List.{flat_map};
ghost use Rattle.std.specs.Fmt.{decimal};
ghost use Rattle.pst_listing.specs.Listing.{word, sort_name, kind_name, kind_word, gives_name, head_line, procedure_text, listed};

use crate::instructions::put_instrs;
use crate::operands::{put_number_word, put_word};
use pst_base::{Kind, NoMemory, Text};
use pst_code::{Code, Procedure};
use pst_program::Program;
use std::alloc::Global;

/// The word that the head line of a procedure or of a query begins with.
fn sort_name(query: bool) -> &'static [u8]
    ensures { result.now ≡ sort_name query }
{
    if query { b"query" } else { b"proc" }
}

/// What a register of a kind holds, in the words of the program.
fn kind_name(program: &Program, kind: Kind) -> &[u8]
    ensures { result.now ≡ kind_name program.now.names kind }
{
    match kind {
        Kind::Int => b"int",
        Kind::Pointer(ty) => program.type_name(ty),
    }
}

/// What a procedure gives, in the words of the program.
fn gives_name(program: &Program, given: Option<Kind>) -> &[u8]
    ensures { result.now ≡ gives_name program.now.names given }
{
    match given {
        None => b"none",
        Some(kind) => kind_name(program, kind),
    }
}

/// Puts what registers hold.
fn put_kinds(out: &mut Vec<u8>, program: &Program, kinds: &[Kind]) -> Result<(), NoMemory>
    ensures { OnOk result (out.new.items ≡ out.old.items ++ flat_map (kind_word program.now.names) kinds.now) }
{
    for kind in kinds {
        put_word(out, kind_name(program, *kind))?;
    }
    Ok(())
}

/// Puts the head line of a procedure.
fn put_head(out: &mut Vec<u8>, program: &Program, procedure: &Procedure) -> Result<(), NoMemory>
    ensures { OnOk result (out.new.items ≡ out.old.items ++ head_line program.now.names procedure.now) }
{
    out.extend_from_slice(sort_name(procedure.query))?;
    put_word(out, procedure.name.as_slice())?;
    out.extend_from_slice(b" args")?;
    put_number_word(out, procedure.arguments)?;
    out.extend_from_slice(b" gives")?;
    put_word(out, gives_name(program, procedure.result))?;
    out.extend_from_slice(b" regs")?;
    put_kinds(out, program, procedure.kinds.as_slice())?;
    out.extend_from_slice(b"\n")
}

/// Puts a procedure.
fn put_procedure(
    out: &mut Vec<u8>,
    program: &Program,
    procedures: &[Procedure],
    procedure: &Procedure,
) -> Result<(), NoMemory>
    ensures { OnOk result (out.new.items ≡ out.old.items ++ procedure_text program.now.names procedures.now procedure.now) }
{
    put_head(out, program, procedure)?;
    put_instrs(out, program, procedures, procedure.instructions.as_slice())
}

/// The listing of procedures.
fn listing_of(alloc: Global, procedures: &[Procedure], program: &Program) -> Result<Text, NoMemory>
    ensures { IfOk result (λ text. text ≡ flat_map (procedure_text program.now.names procedures.now) procedures.now) }
{
    let mut out = Vec::new(alloc);
    for procedure in procedures {
        put_procedure(&mut out, program, procedures, procedure)?;
    }
    Ok(Text::from_vec(out))
}

/// The listing of code, with the names that the program has for the record types.
///
/// Each procedure has a line `proc NAME args A gives G regs K ..`, or the same with `query`: A is the number of its
/// parameters, G is `none`, `int` or the name of a record type, and each K says what a register holds, `int` or the name
/// of a record type. Then each instruction has a line: its index from 0, its name and its operands in order. Registers
/// are printed as `r` and the number, record types and procedures by their names, the missing register of a call as `-`,
/// and all else as decimal numbers. A record type that the program does not name, and a procedure that the code does not
/// have, is printed as no name.
///
/// # Errors
/// Where there was no memory.
#[tactic(auto, unfolding(crate::specs::Listing::listed))]
pub fn listing(alloc: Global, code: &Code, program: &Program) -> Result<Text, NoMemory>
    ensures { IfOk result (λ text. text ≡ listed code.now program.now.names) }
{
    listing_of(alloc, code.procedures(), program)
}
