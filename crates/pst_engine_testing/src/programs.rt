//! Programs of the tests.

ghost use Rattle.std.specs.Prelude.{IfOk};
ghost use Rattle.pst_program.specs.Typed.{IsTyped};
ghost use Rattle.pst_program.specs.View.{routines_of};
ghost use Rattle.pst_history.specs.Direct.{meaning_of};
ghost use Rattle.pst_forest.specs.Forest.{state_of};
ghost use Rattle.pst_engine.specs.Stands.{IsStartedHeap};

use crate::laws::a_new_forest_is_started;
use crate::trouble::Trouble;
use pst_base::NoMemory;
use pst_codegen::compile;
use pst_engine_runs::{Compiled, Meant, compiled_code_means_the_program};
use pst_forest::Forest;
use pst_parse::parse;
use pst_program::Program;
use pst_types::check;
use std::alloc::Global;

/// The typed program of a text of at most 65,536 bytes.
pub fn program_of(alloc: Global, text: &[u8]) -> Result<Program, Trouble>
    ensures { IfOk result (λ program. IsTyped (routines_of program)) }
{
    if text.len() > 65_536 {
        return Err(Trouble::Program);
    }
    let tree = parse(alloc, text)?;
    Ok(check(alloc, tree)?)
}

/// The program of a text of at most 65,536 bytes, with its code.
pub fn compiled(alloc: Global, text: &[u8]) -> Result<Compiled, Trouble> {
    let program = program_of(alloc, text)?;
    let code = compile(alloc, &program)?;
    Ok(Compiled::new(program, code))
}

/// A forest of version 0 for a program.
pub fn forest_for(alloc: Global, code: &Compiled) -> Result<Forest, NoMemory>
    ensures { IfOk result (λ forest. IsStartedHeap (meaning_of code.now) (state_of forest)) }
{
    a_new_forest_is_started();
    let code = code.code();
    Forest::start(alloc, code.shape())
}
