//! The code of numbers and pointers.

ghost use Rattle.std.specs.Prelude.{◌≡◌, [], ◌∷◌, IfOk, OnOk};
ghost use Rattle.pst_base.specs.declared.names.Kind.TheVariants.{Int, Pointer};
ghost use Rattle.pst_program.specs.Syntax.{Number, Null, Root};
ghost use Rattle.pst_program.specs.Typed.{root_kind};
ghost use Rattle.pst_program.specs.View.{expr_of};
ghost use Rattle.pst_translation.specs.Code.{kind_or, arithmetic};
ghost use Rattle.pst_codegen_expressions.specs.Ready.{HasNoted, IsOperand};
ghost use Rattle.pst_codegen_expressions.specs.Emitted.{Emits, temps_of, operand_code, operand_register};

use crate::layout::Layout;
use crate::needs::root_kind;
use pst_base::{Kind, NoMemory, Op, SlotNo, TypeNo};
use pst_code::{Instr, Reg};
use pst_program::Typed;

/// Adds an instruction.
///
/// # Errors
/// Where there was no memory.
pub fn put(code: &mut Vec<Instr>, instr: Instr) -> Result<(), NoMemory>
    ensures { OnOk result (Emits code.old code.new (instr ∷ [])) }
{
    code.push(instr)?;
    Ok(())
}

/// Adds an instruction that sets a register, which is the answer.
fn set(code: &mut Vec<Instr>, register: Reg, instr: Instr) -> Result<Reg, NoMemory>
    ensures code { OnOk result (Emits code.old code.new (instr ∷ [])) }
    ensures register { IfOk result (λ r. r ≡ register) }
{
    code.push(instr)?;
    Ok(register)
}

/// Adds the code of an operand of a level. The answer is the register that holds its value.
///
/// # Errors
/// Where there was no memory.
pub fn emit_expr(
    code: &mut Vec<Instr>,
    layout: &Layout<'_>,
    e: &Typed,
    level: u16,
) -> Result<Reg, NoMemory>
    requires { IsOperand layout.now.shape.now (HasNoted layout.now.table) (expr_of e.now) level }
    ensures code { OnOk result (Emits code.old code.new (operand_code layout.now (expr_of e.now) level)) }
    ensures register { IfOk result (λ r. r ≡ operand_register layout.now (expr_of e.now) level) }
{
    match e {
        Typed::Number(n) => emit_number(code, layout, *n, level),
        Typed::Null(ty) => emit_null(code, layout, *ty, level),
        Typed::Local(x) => Ok(Reg(*x)),
        Typed::Root(slot) => emit_root(code, layout, *slot, level),
        Typed::Parens(inner) => emit_expr(code, layout, inner, level),
        Typed::Load {
            object,
            field,
            kind,
        } => {
            let o = emit_expr(code, layout, object, level)?;
            emit_load(code, layout, o, *field, level, *kind)
        }
        Typed::LoadIndexed {
            object,
            field,
            elements,
            index,
            kind,
        } => {
            let o = emit_expr(code, layout, object, level)?;
            put(code, Instr::Check(o))?;
            let i = emit_expr(code, layout, index, level + 1)?;
            emit_loadx(code, layout, o, *field, *elements, i, level, *kind)
        }
        Typed::Negate(operand) => {
            let a = emit_expr(code, layout, operand, level)?;
            emit_negation(code, layout, a, level)
        }
        Typed::Not(_) => unreachable!(), // A truth is no operand of a typed program.
        Typed::Binary { op, left, right } => {
            let a = emit_expr(code, layout, left, level)?;
            let b = emit_expr(code, layout, right, level + 1)?;
            emit_arithmetic(code, layout, *op, a, b, level)
        }
    }
}

/// Adds the instruction that sets a temporary register to a number.
fn emit_number(
    code: &mut Vec<Instr>,
    layout: &Layout<'_>,
    n: i64,
    level: u16,
) -> Result<Reg, NoMemory>
    requires { HasNoted layout.now.table level Int }
    ensures code { OnOk result (Emits code.old code.new (operand_code layout.now (Number n) level)) }
    ensures register { IfOk result (λ r. r ≡ operand_register layout.now (Number n) level) }
{
    let d = layout.temporary(level, Kind::Int);
    set(code, d, Instr::Const(d, n))
}

/// Adds the instruction that sets a temporary register to null.
fn emit_null(
    code: &mut Vec<Instr>,
    layout: &Layout<'_>,
    ty: TypeNo,
    level: u16,
) -> Result<Reg, NoMemory>
    requires { HasNoted layout.now.table level (Pointer ty) }
    ensures code { OnOk result (Emits code.old code.new (operand_code layout.now (Null ty) level)) }
    ensures register { IfOk result (λ r. r ≡ operand_register layout.now (Null ty) level) }
{
    let d = layout.temporary(level, Kind::Pointer(ty));
    set(code, d, Instr::Null(d))
}

/// Adds the instruction that reads a root into a temporary register.
fn emit_root(
    code: &mut Vec<Instr>,
    layout: &Layout<'_>,
    slot: SlotNo,
    level: u16,
) -> Result<Reg, NoMemory>
    requires { HasNoted layout.now.table level (kind_or (root_kind layout.now.shape.now slot.0)) }
    ensures code { OnOk result (Emits code.old code.new (operand_code layout.now (Root slot.0) level)) }
    ensures register { IfOk result (λ r. r ≡ operand_register layout.now (Root slot.0) level) }
{
    let d = layout.temporary(level, root_kind(layout.shape, slot));
    set(code, d, Instr::Root(d, slot))
}

/// Adds the instruction that reads a field into a temporary register.
fn emit_load(
    code: &mut Vec<Instr>,
    layout: &Layout<'_>,
    object: Reg,
    slot: SlotNo,
    level: u16,
    kind: Kind,
) -> Result<Reg, NoMemory>
    requires { HasNoted layout.now.table level kind }
    ensures code { OnOk result (Emits code.old code.new (Instr.Load (temps_of layout.now level kind) object slot ∷ [])) }
    ensures register { IfOk result (λ r. r ≡ temps_of layout.now level kind) }
{
    let d = layout.temporary(level, kind);
    set(code, d, Instr::Load(d, object, slot))
}

/// Adds the instruction that reads an element of an array into a temporary register.
fn emit_loadx(
    code: &mut Vec<Instr>,
    layout: &Layout<'_>,
    object: Reg,
    slot: SlotNo,
    elements: u8,
    index: Reg,
    level: u16,
    kind: Kind,
) -> Result<Reg, NoMemory>
    requires { HasNoted layout.now.table level kind }
    ensures code { OnOk result (Emits code.old code.new (Instr.Loadx (temps_of layout.now level kind) object slot elements index ∷ [])) }
    ensures register { IfOk result (λ r. r ≡ temps_of layout.now level kind) }
{
    let d = layout.temporary(level, kind);
    set(code, d, Instr::Loadx(d, object, slot, elements, index))
}

/// Adds the instruction that sets a temporary register to the negative of a number.
fn emit_negation(
    code: &mut Vec<Instr>,
    layout: &Layout<'_>,
    a: Reg,
    level: u16,
) -> Result<Reg, NoMemory>
    requires { HasNoted layout.now.table level Int }
    ensures code { OnOk result (Emits code.old code.new (Instr.Neg (temps_of layout.now level Int) a ∷ [])) }
    ensures register { IfOk result (λ r. r ≡ temps_of layout.now level Int) }
{
    let d = layout.temporary(level, Kind::Int);
    set(code, d, Instr::Neg(d, a))
}

/// Adds the instruction of an operator that gives a number, into a temporary register.
fn emit_arithmetic(
    code: &mut Vec<Instr>,
    layout: &Layout<'_>,
    op: Op,
    a: Reg,
    b: Reg,
    level: u16,
) -> Result<Reg, NoMemory>
    requires { HasNoted layout.now.table level Int }
    ensures code { OnOk result (Emits code.old code.new (arithmetic op (temps_of layout.now level Int) a b)) }
    ensures register { IfOk result (λ r. r ≡ temps_of layout.now level Int) }
{
    let d = layout.temporary(level, Kind::Int);
    match op {
        Op::Add => set(code, d, Instr::Add(d, a, b)),
        Op::Sub => set(code, d, Instr::Sub(d, a, b)),
        Op::Mul => set(code, d, Instr::Mul(d, a, b)),
        Op::Div => set(code, d, Instr::Div(d, a, b)),
        Op::Rem => set(code, d, Instr::Rem(d, a, b)),
        Op::Equal
        | Op::NotEqual
        | Op::Less
        | Op::LessEqual
        | Op::Greater
        | Op::GreaterEqual
        | Op::And
        | Op::Or => Ok(d),
    }
}
