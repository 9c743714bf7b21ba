//! Valid code with no program behind it.

use crate::laws::valid_code_has_a_meaning;
use crate::meant::Meant;
use pst_code::Code;
use std::marker::Model;

/// Valid code that means what the machine does on it, whether a program was compiled to it or it was written by hand. Contracts
/// see its parts.
#[derive(Drop)]
pub struct BareCode {
    code: Code,
}

impl Model for BareCode {
    ghost use Rattle.pst_code.specs.declared.procedure.Parts.{Parts};

    ghost Value = { Parts };

    ghost view = { λ c. c.code };
}

impl BareCode {
    ghost use Rattle.std.specs.Prelude.{◌≡◌};

    /// Valid code by itself.
    pub fn new(code: Code) -> BareCode
        ensures { result ≡ code }
    {
        BareCode { code }
    }
}

impl Meant for BareCode {
    ghost use Rattle.pst_engine_runs.specs.Bare.{meant_by_machine};

    ghost meant = { meant_by_machine };

    fn code(&self) -> &Code {
        self.code.known();
        valid_code_has_a_meaning();
        &self.code
    }
}
