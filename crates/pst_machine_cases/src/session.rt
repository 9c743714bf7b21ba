//! Runs of the code of the tests over a forest.

ghost use Rattle.std.specs.Prelude.{◌≡◌, ◌↔◌, ◌<◌, IsTrue, IfOk, OnOk, All, length, slice_get};
ghost use Rattle.pst_base.specs.declared.names.Kind.TheVariants.{Int};
ghost use Rattle.pst_forest.specs.Forest.{state_of};
ghost use Rattle.pst_machine.specs.Advance.{Advanced, HasFewCounts, TakesNumbers};
ghost use Rattle.pst_machine_cases.specs.Session.{IsOpened, IsUntouched};

use super::samples::list;
use pst_base::{Counts, Kind, NoMemory, Numbers, ProcNo, RunNo, VersionNo};
use pst_code::Code;
use pst_forest::{Forest, PlaceNo};
use pst_machine::{Activation, ProcCall, Progress, a_run_begins_ready};
use pst_versions::{HeapAt, MOST_FORKS, VersionedHeap};
use std::alloc::Global;

/// The most charges that a run of a test takes.
const AMPLE: u32 = 10_000_000;

/// Why a test comes to no answer.
#[derive(Clone, Copy, Debug, PartialEq, Eq)]
pub(crate) enum Trouble {
    /// The parts are no valid code.
    Code,
    /// No procedure has the name, or other arguments are wanted.
    Procedure,
    /// There is no version 0.
    Version,
    /// No more forks or records.
    Full,
    /// Memory ran out.
    Memory,
}

impl From<NoMemory> for Trouble {
    fn from(_error: NoMemory) -> Trouble {
        Trouble::Memory
    }
}

/// Code over a forest.
#[derive(Drop)]
pub(crate) struct Session {
    alloc: Global,
    code: Code,
    forest: Forest,
}

impl Session {
    /// The code of the tests over a forest of version 0.
    pub(crate) fn new(alloc: Global) -> Result<Session, Trouble>
        ensures { IfOk result (λ t. IsUntouched t.code (state_of t.forest)) }
    {
        let code = list(alloc)?.ok_or(Trouble::Code)?;
        code.known();
        let forest = Forest::start(alloc, code.shape())?;
        Ok(Session {
            alloc,
            code,
            forest,
        })
    }

    /// A run without a call at a fork of version 0. No run has made a record before.
    pub(crate) fn open(&mut self, run: RunNo) -> Result<Activation<Forest>, Trouble>
        requires untouched { IsUntouched self.old.code (state_of self.old.forest) }
        requires run { 0 < run.0 }
        ensures untouched { OnOk result (IsUntouched self.new.code (state_of self.new.forest)) }
        ensures opened { IfOk result (λ a. IsOpened self.new.code (state_of self.new.forest) a.stage) }
    {
        let at = self.fork()?;
        a_run_begins_ready::<Forest>();
        Ok(Activation::bare(self.alloc, at, run, AMPLE)?)
    }

    /// A fork of version 0.
    fn fork(&mut self) -> Result<PlaceNo, Trouble>
        requires { IsUntouched self.old.code (state_of self.old.forest) }
        ensures untouched { OnOk result (IsUntouched self.new.code (state_of self.new.forest)) }
        ensures place { IfOk result (λ at. (state_of self.new.forest).has at × (state_of self.new.forest).writable at) }
    {
        self.forest.known();
        self.forest.known_versions();
        let place = self.forest.place_of(VersionNo(0)).ok_or(Trouble::Version)?;
        if self.forest.fork_calls() >= MOST_FORKS {
            return Err(Trouble::Full);
        }
        Ok(self.forest.fork(place)?)
    }

    /// Adds a call to a run.
    pub(crate) fn call(
        &self,
        run: &mut Activation<Forest>,
        name: &[u8],
        arguments: &[i64],
    ) -> Result<(), Trouble>
        requires { IsOpened self.now.code (state_of self.now.forest) run.old.stage }
        ensures { OnOk result (IsOpened self.now.code (state_of self.now.forest) run.new.stage) }
    {
        let procedure = find(&self.code, name, arguments)?;
        let arguments = Numbers::from_vec(arguments.to_vec(self.alloc)?);
        a_run_begins_ready::<Forest>();
        let call = ProcCall {
            procedure,
            arguments,
        };
        Ok(run.add(&self.code, call)?)
    }

    /// Grants a run more charges.
    pub(crate) fn advance(
        &mut self,
        run: &mut Activation<Forest>,
        charges: u32,
    ) -> Result<Progress, Trouble>
        requires { IsOpened self.old.code (state_of self.old.forest) run.old.stage }
        ensures ok { IfOk result (λ p. Advanced self.old.code (state_of self.old.forest) run.old.stage charges p (state_of self.new.forest) run.new.stage) }
        ensures code { self.new.code ≡ self.old.code }
        ensures opened { OnOk result (IsOpened self.new.code (state_of self.new.forest) run.new.stage) }
    {
        if !has_few(&self.forest) {
            return Err(Trouble::Full);
        }
        Ok(run.advance(&self.code, &mut self.forest, charges)?)
    }

    /// How many records were made, and how many fields were written.
    pub(crate) fn counts(&self) -> Counts {
        self.forest.counts()
    }
}

/// The procedure with the name, if it takes these numbers.
fn find(code: &Code, name: &[u8], arguments: &[i64]) -> Result<ProcNo, Trouble>
    ensures { IfOk result (λ p. TakesNumbers (slice_get code.now.procedures p.0) (length arguments.now)) }
{
    let procedure = code.procedure(name).ok_or(Trouble::Procedure)?;
    if !are_numbers(code.body(procedure).parameters(), arguments.len()) {
        return Err(Trouble::Procedure);
    }
    Ok(procedure)
}

/// Whether all these are numbers, so many of them.
fn are_numbers(kinds: &[Kind], count: usize) -> bool
    ensures { IsTrue result ↔ ((length kinds.now ≡ count) × All (λ kind. kind ≡ Int) kinds.now) }
{
    kinds.len() == count && kinds.iter().all(|kind| *kind == Kind::Int)
}

/// Whether there is room for all that a run can count.
fn has_few(forest: &Forest) -> bool
    ensures { IsTrue result → HasFewCounts (state_of forest.now) }
{
    let most = 1 << 59;
    let counts = forest.counts();
    counts.records <= most && counts.pointer_writes <= most && counts.value_writes <= most
}
