//! Answering by the engine over a store.

use pst_base::{NoMemory, RunNo};
use pst_cli_scripts::Session;
use pst_codegen::compile;
use pst_engine::{Engine, a_new_engine_stands, an_opening_stands};
use pst_engine_runs::Compiled;
use pst_order::Order;
use pst_program::Program;
use pst_script::{Command, Reply};
use pst_store::StoreOf;
use pst_store_arena::FatNodes;
use std::alloc::Global;

/// The engine with the program's code. The store is held beside it.
#[derive(Drop)]
pub struct Running<O: Order + Drop, N: FatNodes> {
    code: Compiled,
    engine: Engine<StoreOf<O, N>>,
}

impl<O: Order + Drop, N: FatNodes> Running<O, N> {
    ghost use Rattle.std.specs.Prelude.{◌≡◌, ◌+◌, ◌<◌, ◌≤◌, [], IfOk};
    ghost use Rattle.pst_program.specs.View.{routines_of};
    ghost use Rattle.pst_program.specs.Typed.{IsTyped};
    ghost use Rattle.pst_history.specs.History.{begun};
    ghost use Rattle.pst_history.specs.Sound.{IsBudget};
    ghost use Rattle.pst_history.specs.declared.history.TheConstants.{RUNS};
    ghost use Rattle.pst_history.specs.Direct.{meaning_of};
    ghost use Rattle.pst_engine.specs.Stands.{IsOpeningHeap, opening_of};
    ghost use Rattle.pst_store.specs.Whole.{queue_in, state_in};
    ghost use Rattle.pst_cli_serving.specs.Storing.{IsRunning};

    /// A session over a store that has versions, with this next run number and budget. It stands for the opening that has them.
    ///
    /// # Errors
    /// Where there was no memory.
    pub fn over(
        alloc: Global,
        program: Program,
        store: &StoreOf<O, N>,
        next_run: RunNo,
        budget: u32,
    ) -> Result<Running<O, N>, NoMemory>
        requires typed { IsTyped (routines_of program) }
        requires next { (0 < next_run.0) × (next_run.0 ≤ RUNS + 1) }
        requires budget { IsBudget budget }
        requires heap { IsOpeningHeap (meaning_of program) (state_in store.now) next_run.0 }
        requires rested { queue_in store.now ≡ [] }
        ensures about { IfOk result (λ session. session.code ≡ program) }
        ensures stands { IfOk result (λ session. IsRunning session.code session.engine store.now (meaning_of program) (begun (opening_of (state_in store.now) next_run.0 budget))) }
    {
        let code = compile(alloc, &program)?;
        let code = Compiled::new(program, code);
        let engine = Engine::over(alloc, next_run, budget);
        an_opening_stands(&code, store, &engine);
        Ok(Running { code, engine })
    }

    /// The number of the next run.
    pub fn next_run(&self) -> RunNo
        ensures { result ≡ self.now.engine.next_run }
    {
        self.engine.next_run
    }

    /// The budget for runs opened from now on.
    pub fn budget(&self) -> u32
        ensures { result ≡ self.now.engine.budget }
    {
        self.engine.budget
    }
}

impl<O: Order + Drop, N: FatNodes> Session for Running<O, N> {
    ghost use Rattle.std.specs.Prelude.{◌≡◌, None};
    ghost use Rattle.pst_cli_scripts.specs.Script.{by_tree};
    ghost use Rattle.pst_cli_serving.specs.Storing.{IsLeft, IsBroken, IsRunning};

    type Held = StoreOf<O, N>;

    ghost rules = { by_tree };

    ghost about = { λ s. s.code };

    ghost fresh = { λ store. store ≡ None };

    ghost stands = { λ s store m h. IsRunning s.code s.engine store m h };

    ghost leaves = { IsLeft };

    ghost breaks = { IsBroken };

    fn begin(
        alloc: Global,
        program: Program,
        held: &mut StoreOf<O, N>,
    ) -> Result<Running<O, N>, NoMemory> {
        let code = compile(alloc, &program)?;
        held.start(alloc, &program.shape)?;
        let code = Compiled::new(program, code);
        let engine = Engine::new(alloc);
        a_new_engine_stands(&code, held, &engine);
        Ok(Running { code, engine })
    }

    fn program(&self) -> &Program {
        self.code.program()
    }

    fn known(&self, held: &StoreOf<O, N>) {
        held.whole();
    }

    fn apply(
        &mut self,
        alloc: Global,
        held: &mut StoreOf<O, N>,
        command: &Command,
    ) -> Result<Reply, NoMemory> {
        let answer = self.engine.apply(alloc, &self.code, held, command);
        held.whole();
        let reply = answer?;
        // Nothing waits where no call of the store was refused. The engine, which knows any heap of versions, does not say so.
        if held.pending() {
            return Err(NoMemory);
        }
        Ok(reply)
    }
}
