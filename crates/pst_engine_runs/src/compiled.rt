//! The code of a well-typed program.

use crate::laws::compiled_code_means_the_program;
use crate::meant::Meant;
use pst_code::Code;
use pst_program::Program;
use std::marker::Model;

/// A well-typed program and its code. Contracts see the program.
#[derive(Drop)]
pub struct Compiled {
    program: Program,
    code: Code,
}

impl Model for Compiled {
    ghost use Rattle.pst_program.specs.declared.program.Program.{Program};
    ghost use Rattle.pst_program.specs.Typed.{IsTyped};
    ghost use Rattle.pst_program.specs.View.{routines_of};
    ghost use Rattle.pst_translation.specs.Compiled.{code_of};
    ghost use Rattle.std.specs.Prelude.{◌≡◌};
    ghost use Rattle.pst_program.specs.contracts.block.TypedForm as form;
    ghost use Rattle.pst_program.specs.contracts.block.TypedStatement as statement;
    ghost use Rattle.pst_program.specs.contracts.block.TypedBlock as block;
    ghost use Rattle.pst_program.specs.contracts.typed.Typed as typed;
    ghost use Rattle.std.specs.Coded.{codes};

    ghost Value = { Program };

    ghost view = { λ c. c.program };

    ghost coded = { Prim.hlevel (codes, form.the_row.coded, statement.the_row.coded, block.the_row.coded, typed.the_row.coded) };

    ghost invariant = { λ c. IsTyped (routines_of c.program) × (c.code ≡ code_of (routines_of c.program)) };
}

impl Compiled {
    ghost use Rattle.pst_program.specs.Typed.{IsTyped};
    ghost use Rattle.pst_program.specs.View.{routines_of};
    ghost use Rattle.pst_translation.specs.Compiled.{code_of};
    ghost use Rattle.std.specs.Prelude.{◌≡◌};

    /// A well-typed program with its code.
    pub fn new(program: Program, code: Code) -> Compiled
        requires typed { IsTyped (routines_of program) }
        requires compiled { code ≡ code_of (routines_of program) }
        ensures { result ≡ program }
    {
        Compiled { program, code }
    }

    /// The program.
    pub fn program(&self) -> &Program
        ensures { result.now ≡ self.now }
    {
        &self.program
    }
}

impl Meant for Compiled {
    ghost use Rattle.pst_engine_runs.specs.Coded.{meant_by};

    ghost meant = { meant_by };

    fn code(&self) -> &Code {
        compiled_code_means_the_program();
        &self.code
    }
}
