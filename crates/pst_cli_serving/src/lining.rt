//! Answering by the store of a linear history.

use pst_base::NoMemory;
use pst_cli_scripts::Session;
use pst_codegen::compile;
use pst_engine_runs::Compiled;
use pst_line::calls::LineCalls;
use pst_linerun::{LineSession, a_new_session_stands};
use pst_program::Program;
use pst_script::{Command, Reply};
use std::alloc::Global;
use std::marker::PhantomData;

/// The session of a linear history with the program's code. The line store is held beside it.
#[derive(Drop)]
pub struct Lining<L: LineCalls> {
    code: Compiled,
    session: LineSession,
    store: PhantomData<L>,
}

impl<L: LineCalls> Session for Lining<L> {
    ghost use Rattle.pst_line.specs.Store.{IsEmpty};
    ghost use Rattle.pst_cli_serving.specs.Lining.{by_line, IsLineLeft, IsLineBroken, IsLining};

    type Held = L;

    ghost rules = { by_line };

    ghost about = { λ s. s.code };

    ghost fresh = { λ line. IsEmpty (L.stored line) };

    ghost stands = { λ s line m h. IsLining s.code s.session (L.state line) (L.stored line) m h };

    ghost leaves = { λ m line h. IsLineLeft m (L.state line) (L.stored line) h };

    ghost breaks = { λ m line h. IsLineBroken m (L.state line) (L.stored line) h };

    fn begin(alloc: Global, program: Program, held: &mut L) -> Result<Lining<L>, NoMemory> {
        let code = compile(alloc, &program)?;
        held.start(alloc, &program.shape)?;
        let code = Compiled::new(program, code);
        let session = LineSession::new();
        a_new_session_stands(&code, held, &session);
        Ok(Lining {
            code,
            session,
            store: PhantomData,
        })
    }

    fn program(&self) -> &Program {
        self.code.program()
    }

    fn known(&self, held: &L) {
        held.known_line();
    }

    fn apply(&mut self, alloc: Global, held: &mut L, command: &Command) -> Result<Reply, NoMemory> {
        match self.session.apply(alloc, &self.code, held, command) {
            Ok(reply) => Ok(reply),
            Err(error) => {
                held.known_line();
                Err(error)
            }
        }
    }
}
