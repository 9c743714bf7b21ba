//! The compiler.

ghost use Rattle.std.specs.Prelude.{◌≡◌, ◌++◌, map, IfOk};
ghost use Rattle.pst_program.specs.Typed.{IsTyped};
ghost use Rattle.pst_program.specs.View.{routines_of, procedure_of};
ghost use Rattle.pst_translation.specs.Compiled.{procedure_code, code_of};
ghost use Rattle.pst_codegen_expressions.specs.Ready.{IsReadyProcedure};

use crate::blocks::emit_block;
use crate::ends::emit_end;
use pst_base::{Kinds, NoMemory, TypeShape};
use pst_code::{Code, Instrs, Parts, Procedure, ProcedureList};
use pst_codegen_expressions::{Layout, table_of};
use pst_program::{Program, TypedProc};
use pst_translation::Need;
use std::alloc::Global;

/// What the registers of a procedure hold.
fn register_kinds(locals: &Kinds, table: &[Need]) -> Result<Kinds, NoMemory>
    ensures { IfOk result (λ kinds. kinds ≡ locals.now ++ map (λ n. n.kind) table.now) }
{
    let mut kinds = locals.copy()?.into_vec();
    for need in table {
        kinds.push(need.kind)?;
    }
    Ok(Kinds::from_vec(kinds))
}

/// The code of a procedure.
fn compile_procedure(
    alloc: Global,
    shape: &[TypeShape],
    p: &TypedProc,
) -> Result<Procedure, NoMemory>
    requires { IsReadyProcedure shape.now (procedure_of p.now) }
    ensures { IfOk result (λ code. code ≡ procedure_code shape.now (procedure_of p.now)) }
{
    let table = table_of(alloc, shape, p)?;
    let kinds = register_kinds(&p.kinds, table.as_slice())?;
    let layout = Layout {
        shape,
        locals: p.kinds.as_slice().len() as u16,
        table,
    };
    let mut instructions = emit_block(alloc, &layout, &p.body, 0)?;
    emit_end(&mut instructions, &layout, p.result)?;
    instructions.shrink_to_fit();
    Ok(Procedure {
        name: p.name.copy()?,
        query: p.query,
        arguments: p.arguments,
        result: p.result,
        kinds,
        instructions: Instrs::from_vec(instructions),
    })
}

/// The code of a program. Code of more than 4,294,967,295 instructions in a procedure is refused as want of memory, since
/// the index of an instruction has 32 bits.
///
/// # Errors
/// Where there was no memory.
pub fn compile(alloc: Global, program: &Program) -> Result<Code, NoMemory>
    requires { IsTyped (routines_of program.now) }
    ensures { IfOk result (λ code. code ≡ code_of (routines_of program.now)) }
{
    let shape = program.shape.as_slice();
    let mut procedures = Vec::new(alloc);
    for p in &program.procedures.items {
        procedures.push(compile_procedure(alloc, shape, p)?)?;
    }
    Ok(Code::from_valid(Parts {
        shape: program.shape.copy(alloc)?,
        procedures: ProcedureList::from_vec(procedures),
    }))
}
