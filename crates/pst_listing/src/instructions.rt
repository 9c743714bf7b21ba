//! The lines of instructions.

ghost use Rattle.std.specs.Prelude.{◌≡◌, ◌++◌, OnOk};
ghost use Rattle.pst_listing.specs.Listing.{instr_name, instr_line, instr_lines};

use crate::operands::{put_operands, put_word};
use pst_base::{NoMemory, put_number};
use pst_code::{Instr, Procedure};
use pst_program::Program;

/// The name of an instruction.
fn instr_name(instr: &Instr) -> &'static [u8]
    ensures { result.now ≡ instr_name instr.now }
{
    match instr {
        Instr::Charge(_) => b"charge",
        Instr::Const(..) => b"const",
        Instr::Null(_) => b"null",
        Instr::Copy(..) => b"copy",
        Instr::Add(..) => b"add",
        Instr::Sub(..) => b"sub",
        Instr::Mul(..) => b"mul",
        Instr::Div(..) => b"div",
        Instr::Rem(..) => b"rem",
        Instr::Neg(..) => b"neg",
        Instr::Root(..) => b"root",
        Instr::Setroot(..) => b"setroot",
        Instr::Check(_) => b"check",
        Instr::Load(..) => b"load",
        Instr::Store(..) => b"store",
        Instr::Bound(..) => b"bound",
        Instr::Loadx(..) => b"loadx",
        Instr::Storex(..) => b"storex",
        Instr::New(..) => b"new",
        Instr::Print(_) => b"print",
        Instr::Jump(_) => b"jump",
        Instr::Jumpeq(..) => b"jumpeq",
        Instr::Jumpne(..) => b"jumpne",
        Instr::Jumplt(..) => b"jumplt",
        Instr::Jumple(..) => b"jumple",
        Instr::Jumpgt(..) => b"jumpgt",
        Instr::Jumpge(..) => b"jumpge",
        Instr::Call(..) => b"call",
        Instr::Return(_) => b"return",
    }
}

/// Puts the line of an instruction.
fn put_instr(
    out: &mut Vec<u8>,
    program: &Program,
    procedures: &[Procedure],
    index: usize,
    instr: &Instr,
) -> Result<(), NoMemory>
    ensures { OnOk result (out.new.items ≡ out.old.items ++ instr_line program.now.names procedures.now index instr.now) }
{
    put_number(out, index)?;
    put_word(out, instr_name(instr))?;
    put_operands(out, program, procedures, instr)?;
    out.extend_from_slice(b"\n")
}

/// Puts the lines of the instructions of a procedure.
///
/// # Errors
/// Where there was no memory.
pub fn put_instrs(
    out: &mut Vec<u8>,
    program: &Program,
    procedures: &[Procedure],
    instrs: &[Instr],
) -> Result<(), NoMemory>
    ensures { OnOk result (out.new.items ≡ out.old.items ++ instr_lines program.now.names procedures.now 0 instrs.now) }
{
    for (index, instr) in instrs.iter().enumerate() {
        put_instr(out, program, procedures, index, instr)?;
    }
    Ok(())
}
