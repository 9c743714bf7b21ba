//! The listing of numbers that no program has.

use crate::made::code_of;
use pst_base::{Kind, NoMemory, Shape, TypeNo};
use pst_code::{Instr, Reg};
use pst_listing::listing;
use pst_program::{Program, TypeNames, TypedProcs};
use std::alloc::Global;

/// A program of language 2 in which nothing is declared.
fn nothing(alloc: Global) -> Program {
    Program {
        language: 2,
        shape: Shape::from_vec(Vec::new(alloc)),
        names: TypeNames::from_vec(Vec::new(alloc)),
        procedures: TypedProcs {
            items: Vec::new(alloc),
        },
    }
}

/// The last line, the least number, and the last register of the 65,535 that there may be.
fn greatest(alloc: Global) -> Result<Vec<Instr>, NoMemory> {
    Ok(vec![in alloc;
        Instr::Charge(4_294_967_295),
        Instr::Const(Reg(0), -9_223_372_036_854_775_808),
        Instr::Null(Reg(65_534)),
        Instr::Return(None),
    ]?)
}

const LISTED: &[u8] = b"
0 charge 4294967295
1 const r0 -9223372036854775808
2 null r65534
3 return
query ask args 1 gives int regs int
0 return r0
";

#[test]
fn numbers_are_listed_up_to_the_ends_of_their_types(rt: HostRuntime) -> Result<(), NoMemory> {
    let alloc = rt.alloc();
    let mut kinds = vec![in alloc; Kind::Int; 65_534]?;
    kinds.push(Kind::Pointer(TypeNo(1)))?;
    match code_of(alloc, kinds, greatest(alloc)?)? {
        None => assert!(rt; false),
        Some(code) => {
            let text = listing(alloc, &code, &nothing(alloc))?;
            assert!(rt; text.as_slice().ends_with(LISTED));
        }
    }
    Ok(())
}
