//! The code of statements that hold no others.

ghost use Rattle.std.specs.Prelude.{◌≡◌, map, IfOk, OnOk};
ghost use Rattle.std.specs.Option.{option_map};
ghost use Rattle.pst_program.specs.Syntax.{Set, SetRoot, Store, StoreIndexed, Call, Print, Return};
ghost use Rattle.pst_program.specs.View.{expr_of};
ghost use Rattle.pst_codegen_expressions.specs.Ready.{HasNoted, IsOperand, AreArguments, IsResult};
ghost use Rattle.pst_codegen_expressions.specs.Emitted.{Emits};
ghost use Rattle.pst_codegen.specs.Made.{EmitsOne, arguments_by, argument_registers};

use pst_base::{NoMemory, ProcNo, SlotNo};
use pst_code::{Instr, Reg, Regs};
use pst_codegen_expressions::{Layout, emit_expr, put};
use pst_program::{Typed, TypedList};
use std::alloc::Global;

/// Adds the code of an assignment to a local.
///
/// # Errors
/// Where there was no memory.
pub fn emit_set(
    code: &mut Vec<Instr>,
    layout: &Layout<'_>,
    local: u16,
    e: &Typed,
    line: u32,
) -> Result<(), NoMemory>
    requires { IsOperand layout.now.shape.now (HasNoted layout.now.table) (expr_of e.now) 0 }
    ensures { OnOk result (EmitsOne layout.now code.old code.new (Set local (expr_of e.now)) line) }
{
    put(code, Instr::Charge(line))?;
    let value = emit_expr(code, layout, e, 0)?;
    put(code, Instr::Copy(Reg(local), value))
}

/// Adds the code of an assignment to a root.
///
/// # Errors
/// Where there was no memory.
pub fn emit_set_root(
    code: &mut Vec<Instr>,
    layout: &Layout<'_>,
    slot: SlotNo,
    e: &Typed,
    line: u32,
) -> Result<(), NoMemory>
    requires { IsOperand layout.now.shape.now (HasNoted layout.now.table) (expr_of e.now) 0 }
    ensures { OnOk result (EmitsOne layout.now code.old code.new (SetRoot slot.0 (expr_of e.now)) line) }
{
    put(code, Instr::Charge(line))?;
    let value = emit_expr(code, layout, e, 0)?;
    put(code, Instr::Setroot(slot, value))
}

/// Adds the code of an assignment to a field. Null traps before the value is evaluated.
///
/// # Errors
/// Where there was no memory.
pub fn emit_store(
    code: &mut Vec<Instr>,
    layout: &Layout<'_>,
    object: &Typed,
    slot: SlotNo,
    e: &Typed,
    line: u32,
) -> Result<(), NoMemory>
    requires object { IsOperand layout.now.shape.now (HasNoted layout.now.table) (expr_of object.now) 0 }
    requires value { IsOperand layout.now.shape.now (HasNoted layout.now.table) (expr_of e.now) 1 }
    ensures { OnOk result (EmitsOne layout.now code.old code.new (Store (expr_of object.now) slot.0 (expr_of e.now)) line) }
{
    put(code, Instr::Charge(line))?;
    let object = emit_expr(code, layout, object, 0)?;
    put(code, Instr::Check(object))?;
    let value = emit_expr(code, layout, e, 1)?;
    put(code, Instr::Store(object, slot, value))
}

/// Adds the code of an assignment to an element of an array: the slot of the first one, and how many there are. Null traps
/// before the index is evaluated, and a number that is no index before the value is.
///
/// # Errors
/// Where there was no memory.
pub fn emit_store_element(
    code: &mut Vec<Instr>,
    layout: &Layout<'_>,
    object: &Typed,
    slot: SlotNo,
    elements: u8,
    index: &Typed,
    e: &Typed,
    line: u32,
) -> Result<(), NoMemory>
    requires object { IsOperand layout.now.shape.now (HasNoted layout.now.table) (expr_of object.now) 0 }
    requires index { IsOperand layout.now.shape.now (HasNoted layout.now.table) (expr_of index.now) 1 }
    requires value { IsOperand layout.now.shape.now (HasNoted layout.now.table) (expr_of e.now) 2 }
    ensures { OnOk result (EmitsOne layout.now code.old code.new (StoreIndexed (expr_of object.now) slot.0 elements (expr_of index.now) (expr_of e.now)) line) }
{
    put(code, Instr::Charge(line))?;
    let object = emit_expr(code, layout, object, 0)?;
    put(code, Instr::Check(object))?;
    let index = emit_expr(code, layout, index, 1)?;
    put(code, Instr::Bound(index, elements))?;
    let value = emit_expr(code, layout, e, 2)?;
    put(code, Instr::Storex(object, slot, elements, index, value))
}

/// Adds the code of `print`.
///
/// # Errors
/// Where there was no memory.
pub fn emit_print(
    code: &mut Vec<Instr>,
    layout: &Layout<'_>,
    e: &Typed,
    line: u32,
) -> Result<(), NoMemory>
    requires { IsOperand layout.now.shape.now (HasNoted layout.now.table) (expr_of e.now) 0 }
    ensures { OnOk result (EmitsOne layout.now code.old code.new (Print (expr_of e.now)) line) }
{
    put(code, Instr::Charge(line))?;
    let value = emit_expr(code, layout, e, 0)?;
    put(code, Instr::Print(value))
}

/// Adds the code of `return`.
///
/// # Errors
/// Where there was no memory.
pub fn emit_return(
    code: &mut Vec<Instr>,
    layout: &Layout<'_>,
    value: &Option<Typed>,
    line: u32,
) -> Result<(), NoMemory>
    requires { IsResult layout.now.shape.now (HasNoted layout.now.table) (option_map expr_of value.now) }
    ensures { OnOk result (EmitsOne layout.now code.old code.new (Return (option_map expr_of value.now)) line) }
{
    put(code, Instr::Charge(line))?;
    match value {
        None => put(code, Instr::Return(None)),
        Some(e) => {
            let value = emit_expr(code, layout, e, 0)?;
            put(code, Instr::Return(Some(value)))
        }
    }
}

/// Adds the code of arguments. The answer is the registers that hold their values.
fn emit_arguments(
    alloc: Global,
    code: &mut Vec<Instr>,
    layout: &Layout<'_>,
    list: &[Typed],
) -> Result<Regs, NoMemory>
    requires { AreArguments layout.now.shape.now (HasNoted layout.now.table) (map expr_of list.now) 0 }
    ensures code { OnOk result (Emits code.old code.new (arguments_by layout.now (map expr_of list.now))) }
    ensures registers { IfOk result (λ rs. rs ≡ argument_registers layout.now (map expr_of list.now)) }
{
    let mut values = Vec::with_capacity(alloc, list.len())?;
    let mut level = 0;
    for e in list {
        values.push(emit_expr(code, layout, e, level)?)?;
        level += 1;
    }
    Ok(Regs::from_vec(values))
}

/// Adds the code of a call.
///
/// # Errors
/// Where there was no memory.
pub fn emit_call(
    alloc: Global,
    code: &mut Vec<Instr>,
    layout: &Layout<'_>,
    local: Option<u16>,
    procedure: ProcNo,
    arguments: &TypedList,
    line: u32,
) -> Result<(), NoMemory>
    requires { AreArguments layout.now.shape.now (HasNoted layout.now.table) (map expr_of arguments.now) 0 }
    ensures { OnOk result (EmitsOne layout.now code.old code.new (Call local procedure.0 (map expr_of arguments.now)) line) }
{
    put(code, Instr::Charge(line))?;
    let values = emit_arguments(alloc, code, layout, arguments.as_slice())?;
    put(code, Instr::Call(procedure, local.map(Reg), values))
}
