//! Code that keeps each rule of valid code, and code that breaks it.

use crate::made::{M, N, P, code_of, is_valid, may_stand};
use pst_base::{Kind, NoMemory, ProcNo, SlotNo};
use pst_code::{Instr, Reg, Regs};
use std::alloc::Global;

const CHARGE: Instr = Instr::Charge(1);

const STORE: Instr = Instr::Store(P, SlotNo(0), M);

const RETURN: Instr = Instr::Return(None);

#[test]
fn operands_hold_what_their_instruction_takes(rt: HostRuntime) -> Result<(), NoMemory> {
    let alloc = rt.alloc();
    assert!(rt; may_stand(alloc, Instr::Add(N, N, M))?);
    assert!(rt; !may_stand(alloc, Instr::Add(N, N, P))?);
    assert!(rt; may_stand(alloc, Instr::Load(P, P, SlotNo(1)))?);
    assert!(rt; !may_stand(alloc, Instr::Load(P, P, SlotNo(0)))?);
    Ok(())
}

/// A call of `ask` with a number.
fn call_into(alloc: Global, into: Reg) -> Result<Instr, NoMemory> {
    let arguments = Regs::from_vec(vec![in alloc; M]?);
    Ok(Instr::Call(ProcNo(1), Some(into), arguments))
}

#[test]
fn result_of_a_call_goes_into_a_register_of_its_kind(rt: HostRuntime) -> Result<(), NoMemory> {
    let alloc = rt.alloc();
    assert!(rt; may_stand(alloc, call_into(alloc, N)?)?);
    assert!(rt; !may_stand(alloc, call_into(alloc, P)?)?);
    Ok(())
}

#[test]
fn each_write_is_paid_for(rt: HostRuntime) -> Result<(), NoMemory> {
    let alloc = rt.alloc();
    let sum = Instr::Add(N, N, M);
    assert!(rt; is_valid(alloc, vec![in alloc; CHARGE, sum, STORE, RETURN]?)?);
    assert!(rt; !is_valid(alloc, vec![in alloc; STORE, RETURN]?)?);
    assert!(rt; !is_valid(alloc, vec![in alloc; CHARGE, STORE, STORE, RETURN]?)?);
    let jump = Instr::Jumpeq(N, M, 2);
    assert!(rt; !is_valid(alloc, vec![in alloc; jump, CHARGE, STORE, RETURN]?)?);
    Ok(())
}

#[test]
fn way_back_takes_a_charge_and_code_ends_by_a_return(rt: HostRuntime) -> Result<(), NoMemory> {
    let alloc = rt.alloc();
    assert!(rt; is_valid(alloc, vec![in alloc; CHARGE, Instr::Jump(0)]?)?);
    assert!(rt; !is_valid(alloc, vec![in alloc; RETURN, Instr::Jump(0)]?)?);
    assert!(rt; !is_valid(alloc, vec![in alloc; CHARGE, Instr::Add(N, N, M)]?)?);
    Ok(())
}

#[test]
fn procedures_are_looked_at(rt: HostRuntime) -> Result<(), NoMemory> {
    let alloc = rt.alloc();
    let kinds = vec![in alloc; Kind::Int]?;
    match code_of(alloc, kinds, vec![in alloc; RETURN]?)? {
        Some(code) if code.procedures().len() == 2 => {
            assert!(rt; code.is_query(ProcNo(1)) && code.shape().is_valid());
            assert_eq!(rt; code.parameters(ProcNo(1)), [Kind::Int].as_slice());
            assert_eq!(rt; code.body(ProcNo(1)).instructions.as_slice().len(), 1);
            assert_eq!(rt; code.procedure(b"ask"), Some(ProcNo(1)));
            assert_eq!(rt; code.procedure(b"as"), None);
        }
        _ => assert!(rt; false),
    }
    Ok(())
}
