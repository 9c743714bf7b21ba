//! Calls of a run.

use pst_base::{Items, NoMemory, Numbers, ProcNo};

/// A call of a run: a procedure by its number, with its arguments.
#[derive(Drop)]
pub struct ProcCall {
    pub procedure: ProcNo,
    pub arguments: Numbers,
}

impl ProcCall {
    ghost use Rattle.std.specs.Prelude.{◌≡◌, IfOk};

    /// An equal call.
    ///
    /// # Errors
    /// Where there was no memory.
    pub fn copy(&self) -> Result<ProcCall, NoMemory>
        ensures { IfOk result (λ call. call ≡ self.now) }
    {
        Ok(ProcCall {
            procedure: self.procedure,
            arguments: self.arguments.copy()?,
        })
    }
}

/// The calls of a run, in order.
pub type Calls = Items<ProcCall>;
