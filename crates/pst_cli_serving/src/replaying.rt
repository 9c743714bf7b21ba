//! Answering by the replayer.

use pst_base::NoMemory;
use pst_cli_scripts::Session;
use pst_program::Program;
use pst_replay::Replayer;
use pst_script::{Command, Reply};
use std::alloc::Global;

/// The replayer with its program. It holds nothing beside itself.
#[derive(Drop)]
pub struct Replaying {
    program: Program,
    replayer: Replayer,
}

impl Session for Replaying {
    ghost use Rattle.std.specs.Prelude.{⊤};
    ghost use Rattle.pst_cli_scripts.specs.Script.{by_tree};
    ghost use Rattle.pst_cli_serving.specs.Replaying.{IsReplaying};

    type Held = ();

    ghost rules = { by_tree };

    ghost about = { λ s. s.program };

    ghost fresh = { λ _. ⊤ };

    ghost stands = { λ s _ m h. IsReplaying s.program s.replayer m h };

    ghost leaves = { λ _ _ _. ⊤ };

    ghost breaks = { λ _ _ _. ⊤ };

    fn begin(alloc: Global, program: Program, _held: &mut ()) -> Result<Replaying, NoMemory> {
        Ok(Replaying {
            program,
            replayer: Replayer::new(alloc),
        })
    }

    fn program(&self) -> &Program {
        &self.program
    }

    fn known(&self, _held: &()) {}

    fn apply(
        &mut self,
        _alloc: Global,
        _held: &mut (),
        command: &Command,
    ) -> Result<Reply, NoMemory> {
        self.replayer.apply(&self.program, command)
    }
}
