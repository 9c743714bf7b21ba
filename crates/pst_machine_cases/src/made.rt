//! The code of the tests.

use pst_base::{Kind, Kinds, NoMemory, Shape, Targets, Text, TypeNo, TypeShape};
use pst_code::{Code, Instr, Instrs, Parts, Procedure, ProcedureList, Reg};
use std::alloc::Global;

/// Pointers to the one type beside the root's.
const CELL: Kind = Kind::Pointer(TypeNo(1));

/// The first two registers hold numbers, and the third a pointer to a cell.
pub(crate) const N: Reg = Reg(0);

pub(crate) const M: Reg = Reg(1);

pub(crate) const P: Reg = Reg(2);

/// A record type of one number and so many pointers to cells.
fn type_of(alloc: Global, pointers: usize, limit: u8) -> Result<TypeShape, NoMemory> {
    let targets = Targets::from_vec(vec![in alloc; TypeNo(1); pointers]?);
    Ok(TypeShape {
        values: 1,
        targets,
        limit,
    })
}

/// A query of a number, which it gives.
fn ask(alloc: Global) -> Result<Procedure, NoMemory> {
    Ok(Procedure {
        name: Text::from_vec(b"ask".to_vec(alloc)?),
        query: true,
        arguments: 1,
        result: Some(Kind::Int),
        kinds: Kinds::from_vec(vec![in alloc; Kind::Int]?),
        instructions: Instrs::from_vec(vec![in alloc; Instr::Return(Some(N))]?),
    })
}

/// A procedure of a number with these registers and instructions.
fn main(alloc: Global, kinds: Vec<Kind>, instructions: Vec<Instr>) -> Result<Procedure, NoMemory> {
    Ok(Procedure {
        name: Text::from_vec(b"main".to_vec(alloc)?),
        query: false,
        arguments: 1,
        result: None,
        kinds: Kinds::from_vec(kinds),
        instructions: Instrs::from_vec(instructions),
    })
}

/// The code of a procedure of a number, with these registers, and of a query `ask`, if it is valid. A cell has a number and
/// 17 pointers.
pub(crate) fn code_of(
    alloc: Global,
    kinds: Vec<Kind>,
    instructions: Vec<Instr>,
) -> Result<Option<Code>, NoMemory> {
    let procedures = vec![in alloc; main(alloc, kinds, instructions)?, ask(alloc)?]?;
    let types = vec![in alloc; type_of(alloc, 1, 1)?, type_of(alloc, 17, 2)?]?;
    let parts = Parts {
        shape: Shape::from_vec(types),
        procedures: ProcedureList::from_vec(procedures),
    };
    Code::new(alloc, parts)
}

/// Whether code with the registers N, M and P is valid.
pub(crate) fn is_valid(alloc: Global, instructions: Vec<Instr>) -> Result<bool, NoMemory> {
    let kinds = vec![in alloc; Kind::Int, Kind::Int, CELL]?;
    Ok(code_of(alloc, kinds, instructions)?.is_some())
}

/// Whether an instruction behind a charge is valid.
pub(crate) fn may_stand(alloc: Global, instr: Instr) -> Result<bool, NoMemory> {
    is_valid(
        alloc,
        vec![in alloc; Instr::Charge(1), instr, Instr::Return(None)]?,
    )
}
