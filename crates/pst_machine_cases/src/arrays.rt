//! Arrays are slots of one kind.

use crate::made::{M, N, P, is_valid, may_stand};
use pst_base::{NoMemory, SlotNo};
use pst_code::{Instr, Reg};
use std::alloc::Global;

/// An element of cells at an index, from an array of so many elements that begins at a slot.
fn loadx(slot: u16, elements: u8, index: Reg) -> Instr {
    Instr::Loadx(P, P, SlotNo(slot), elements, index)
}

/// An element of an array of 16 cells is written.
fn storex(value: Reg) -> Instr {
    Instr::Storex(P, SlotNo(1), 16, N, value)
}

#[test]
fn bounds_are_from_1_to_16(rt: HostRuntime) -> Result<(), NoMemory> {
    let alloc = rt.alloc();
    assert!(rt; may_stand(alloc, Instr::Bound(N, 16))?);
    assert!(rt; !may_stand(alloc, Instr::Bound(N, 0))?);
    assert!(rt; !may_stand(alloc, Instr::Bound(N, 17))?);
    assert!(rt; !may_stand(alloc, Instr::Bound(P, 1))?);
    Ok(())
}

#[test]
fn an_array_lies_within_its_record(rt: HostRuntime) -> Result<(), NoMemory> {
    let alloc = rt.alloc();
    assert!(rt; may_stand(alloc, loadx(2, 16, N))?);
    assert!(rt; !may_stand(alloc, loadx(3, 16, N))?);
    assert!(rt; !may_stand(alloc, loadx(1, 17, N))?);
    assert!(rt; !may_stand(alloc, loadx(1, 0, N))?);
    Ok(())
}

#[test]
fn all_elements_are_of_the_kind_and_the_index_is_a_number(rt: HostRuntime) -> Result<(), NoMemory> {
    let alloc = rt.alloc();
    assert!(rt; !may_stand(alloc, loadx(0, 2, N))?);
    assert!(rt; !may_stand(alloc, loadx(0, 1, N))?);
    assert!(rt; !may_stand(alloc, loadx(1, 2, P))?);
    Ok(())
}

#[test]
fn written_elements_are_of_the_kind_and_paid_for(rt: HostRuntime) -> Result<(), NoMemory> {
    let alloc = rt.alloc();
    assert!(rt; may_stand(alloc, storex(P))?);
    assert!(rt; !may_stand(alloc, storex(M))?);
    assert!(rt; !is_valid(alloc, vec![in alloc; storex(P), Instr::Return(None)]?)?);
    Ok(())
}
