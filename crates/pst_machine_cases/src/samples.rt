//! The code of the tests.

use pst_base::{Kind, Kinds, NoMemory, Shape, SlotNo, Targets, Text, TypeNo, TypeShape};
use pst_code::{Code, Instr, Instrs, Parts, Procedure, ProcedureList, Reg};
use std::alloc::Global;

/// The type of all records but the root record: a number, and a pointer to an item.
const ITEM: TypeNo = TypeNo(1);

/// A list of items, with a root to its first one, and procedures that are called `add` and `count`.
pub(crate) fn list(alloc: Global) -> Result<Option<Code>, NoMemory> {
    let shape = Shape::from_vec(Vec::from_array(
        alloc,
        [record(alloc, 0, 1)?, record(alloc, 1, 2)?],
    )?);
    let procedures = Vec::from_array(alloc, [add(alloc)?, count(alloc)?])?;
    let parts = Parts {
        shape,
        procedures: ProcedureList::from_vec(procedures),
    };
    Code::new(alloc, parts)
}

/// A type with this many numbers, a pointer to an item, and this limit.
fn record(alloc: Global, values: u16, limit: u8) -> Result<TypeShape, NoMemory> {
    Ok(TypeShape {
        values,
        targets: Targets::from_vec(Vec::from_array(alloc, [ITEM])?),
        limit,
    })
}

/// A procedure with one argument, a number.
fn procedure(
    alloc: Global,
    name: &[u8],
    kinds: Vec<Kind>,
    instructions: Vec<Instr>,
) -> Result<Procedure, NoMemory> {
    Ok(Procedure {
        name: Text::from_vec(name.to_vec(alloc)?),
        query: false,
        arguments: 1,
        result: None,
        kinds: Kinds::from_vec(kinds),
        instructions: Instrs::from_vec(instructions),
    })
}

/// Makes an item with the number, in front of the list. It takes four charges.
fn add(alloc: Global) -> Result<Procedure, NoMemory> {
    let (k, item, first) = (Reg(0), Reg(1), Reg(2));
    let instructions = [
        Instr::Charge(5),
        Instr::New(item, ITEM),
        Instr::Charge(6),
        Instr::Store(item, SlotNo(0), k),
        Instr::Charge(7),
        Instr::Root(first, SlotNo(0)),
        Instr::Store(item, SlotNo(1), first),
        Instr::Charge(8),
        Instr::Setroot(SlotNo(0), item),
        Instr::Return(None),
    ];
    let kinds = [Kind::Int, Kind::Pointer(ITEM), Kind::Pointer(ITEM)];
    procedure(
        alloc,
        b"add",
        Vec::from_array(alloc, kinds)?,
        Vec::from_array(alloc, instructions)?,
    )
}

/// Counts up to the argument, and prints it. It takes two charges a turn, one for the last test and one for the print.
fn count(alloc: Global) -> Result<Procedure, NoMemory> {
    let (n, i, one) = (Reg(0), Reg(1), Reg(2));
    let instructions = [
        Instr::Charge(4),
        Instr::Jumpge(i, n, 6),
        Instr::Charge(5),
        Instr::Const(one, 1),
        Instr::Add(i, i, one),
        Instr::Jump(0),
        Instr::Charge(7),
        Instr::Print(i),
        Instr::Return(None),
    ];
    procedure(
        alloc,
        b"count",
        Vec::from_array(alloc, [Kind::Int, Kind::Int, Kind::Int])?,
        Vec::from_array(alloc, instructions)?,
    )
}
