//! What the code of a procedure is made by.

ghost use Rattle.std.specs.Prelude.{◌+◌, ◌≤◌, length};
ghost use Rattle.pst_code.specs.declared.procedure.TheConstants.{MOST_REGISTERS};

use crate::table::Table;
use pst_base::{Kind, TypeShape};
use pst_code::Reg;

/// The record types, and the registers of a procedure: the parameters and locals first, then the temporary ones.
#[derive(Drop)]
pub struct Layout<'a> {
    pub shape: &'a [TypeShape],
    pub locals: u16,
    pub table: Table,
    ghost few: { locals + length table ≤ MOST_REGISTERS },
}

impl Layout<'_> {
    ghost use Rattle.std.specs.Prelude.{◌≡◌};
    ghost use Rattle.pst_translation.specs.Needs.{temp_of};
    ghost use Rattle.pst_codegen_expressions.specs.Ready.{HasNoted};

    /// The temporary register for a level and a kind.
    pub fn temporary(&self, level: u16, kind: Kind) -> Reg
        requires { HasNoted self.now.table level kind }
        ensures { result ≡ temp_of self.now.locals self.now.table level kind }
    {
        let index = self.table.index_of(level, kind);
        Reg((usize::from(self.locals) + index) as u16)
    }
}
