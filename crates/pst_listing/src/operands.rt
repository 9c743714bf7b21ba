//! The operands of instructions, each behind a space.

ghost use Rattle.std.specs.Prelude.{◌≡◌, ◌++◌, OnOk, slice_get};
ghost use Rattle.std.specs.Fmt.{decimal};
ghost use Rattle.pst_program.specs.Names.{type_named};
ghost use Rattle.pst_listing.specs.Listing.{word, register_word, register_words, name_of, procedure_word, into_word, array_words, operands};

use itoa::Integer;
use pst_base::{NoMemory, ProcNo, SlotNo, TypeNo, put_number};
use pst_code::{Instr, Procedure, Reg, Regs};
use pst_program::Program;

/// Puts a word.
///
/// # Errors
/// Where there was no memory.
pub fn put_word(out: &mut Vec<u8>, text: &[u8]) -> Result<(), NoMemory>
    ensures { OnOk result (out.new.items ≡ out.old.items ++ word text.now) }
{
    out.extend_from_slice(b" ")?;
    out.extend_from_slice(text)
}

/// Puts a number as a word.
///
/// # Errors
/// Where there was no memory.
pub fn put_number_word<N: Integer>(out: &mut Vec<u8>, number: N) -> Result<(), NoMemory>
    ensures { OnOk result (out.new.items ≡ out.old.items ++ word (N.text number)) }
{
    out.extend_from_slice(b" ")?;
    put_number(out, number)
}

/// Puts a register.
fn put_register(out: &mut Vec<u8>, register: Reg) -> Result<(), NoMemory>
    ensures { OnOk result (out.new.items ≡ out.old.items ++ register_word register) }
{
    out.extend_from_slice(b" r")?;
    put_number(out, register.0)
}

/// Puts registers in order.
fn put_registers(out: &mut Vec<u8>, registers: &[Reg]) -> Result<(), NoMemory>
    ensures { OnOk result (out.new.items ≡ out.old.items ++ register_words registers.now) }
{
    for register in registers {
        put_register(out, *register)?;
    }
    Ok(())
}

/// Puts registers and then a number.
fn put_registers_and<N: Integer>(
    out: &mut Vec<u8>,
    registers: &[Reg],
    number: N,
) -> Result<(), NoMemory>
    ensures { OnOk result (out.new.items ≡ out.old.items ++ (register_words registers.now ++ word (N.text number))) }
{
    put_registers(out, registers)?;
    put_number_word(out, number)
}

/// Puts the operands of a write of a root.
fn put_setroot(out: &mut Vec<u8>, slot: SlotNo, value: Reg) -> Result<(), NoMemory>
    ensures { OnOk result (out.new.items ≡ out.old.items ++ (word (decimal slot.0) ++ register_word value)) }
{
    put_number_word(out, slot.0)?;
    put_register(out, value)
}

/// Puts the operands of a new record, whose type is told by its name.
fn put_new(out: &mut Vec<u8>, program: &Program, into: Reg, ty: TypeNo) -> Result<(), NoMemory>
    ensures { OnOk result (out.new.items ≡ out.old.items ++ (register_word into ++ word (type_named program.now.names ty))) }
{
    put_register(out, into)?;
    put_word(out, program.type_name(ty))
}

/// Puts the operands of a write to a record.
fn put_store(out: &mut Vec<u8>, object: Reg, slot: SlotNo, value: Reg) -> Result<(), NoMemory>
    ensures { OnOk result (out.new.items ≡ out.old.items ++ (register_word object ++ word (decimal slot.0) ++ register_word value)) }
{
    put_register(out, object)?;
    put_number_word(out, slot.0)?;
    put_register(out, value)
}

/// Puts registers, the slot of the first element of an array, how many there are, and more registers.
fn put_array(
    out: &mut Vec<u8>,
    before: &[Reg],
    slot: SlotNo,
    elements: u8,
    behind: &[Reg],
) -> Result<(), NoMemory>
    ensures { OnOk result (out.new.items ≡ out.old.items ++ array_words before.now slot elements behind.now) }
{
    put_registers(out, before)?;
    put_number_word(out, slot.0)?;
    put_number_word(out, elements)?;
    put_registers(out, behind)
}

/// The name of a procedure by its number; empty where there is none.
fn name_of(procedures: &[Procedure], procedure: ProcNo) -> &[u8]
    ensures { result.now ≡ name_of (slice_get procedures.now procedure.0) }
{
    match procedures.get(usize::from(procedure.0)) {
        None => &[],
        Some(procedure) => procedure.name.as_slice(),
    }
}

/// Puts the register for the result of a call, or a dash.
fn put_into(out: &mut Vec<u8>, into: Option<Reg>) -> Result<(), NoMemory>
    ensures { OnOk result (out.new.items ≡ out.old.items ++ into_word into) }
{
    match into {
        None => out.extend_from_slice(b" -"),
        Some(register) => put_register(out, register),
    }
}

/// Puts the operands of a call.
fn put_call(
    out: &mut Vec<u8>,
    procedures: &[Procedure],
    procedure: ProcNo,
    into: Option<Reg>,
    arguments: &Regs,
) -> Result<(), NoMemory>
    ensures { OnOk result (out.new.items ≡ out.old.items ++ (procedure_word procedures.now procedure ++ into_word into ++ register_words arguments.now)) }
{
    put_word(out, name_of(procedures, procedure))?;
    put_into(out, into)?;
    put_registers(out, arguments.as_slice())
}

/// Puts the operands of an instruction.
///
/// # Errors
/// Where there was no memory.
pub fn put_operands(
    out: &mut Vec<u8>,
    program: &Program,
    procedures: &[Procedure],
    instr: &Instr,
) -> Result<(), NoMemory>
    ensures { OnOk result (out.new.items ≡ out.old.items ++ operands program.now.names procedures.now instr.now) }
{
    match instr {
        Instr::Charge(n) | Instr::Jump(n) => put_number_word(out, *n),
        Instr::Const(d, n) => put_registers_and(out, &[*d], *n),
        Instr::Null(r) | Instr::Check(r) | Instr::Print(r) => put_register(out, *r),
        Instr::Copy(d, s) | Instr::Neg(d, s) => put_registers(out, &[*d, *s]),
        Instr::Add(d, a, b)
        | Instr::Sub(d, a, b)
        | Instr::Mul(d, a, b)
        | Instr::Div(d, a, b)
        | Instr::Rem(d, a, b) => put_registers(out, &[*d, *a, *b]),
        Instr::Root(d, slot) => put_registers_and(out, &[*d], slot.0),
        Instr::Setroot(slot, s) => put_setroot(out, *slot, *s),
        Instr::Load(d, o, slot) => put_registers_and(out, &[*d, *o], slot.0),
        Instr::Store(o, slot, s) => put_store(out, *o, *slot, *s),
        Instr::Bound(i, n) => put_registers_and(out, &[*i], *n),
        Instr::Loadx(d, o, slot, n, i) => put_array(out, &[*d, *o], *slot, *n, &[*i]),
        Instr::Storex(o, slot, n, i, s) => put_array(out, &[*o], *slot, *n, &[*i, *s]),
        Instr::New(d, ty) => put_new(out, program, *d, *ty),
        Instr::Jumpeq(a, b, to)
        | Instr::Jumpne(a, b, to)
        | Instr::Jumplt(a, b, to)
        | Instr::Jumple(a, b, to)
        | Instr::Jumpgt(a, b, to)
        | Instr::Jumpge(a, b, to) => put_registers_and(out, &[*a, *b], *to),
        Instr::Call(p, into, arguments) => put_call(out, procedures, *p, *into, arguments),
        Instr::Return(None) => Ok(()),
        Instr::Return(Some(s)) => put_register(out, *s),
    }
}
