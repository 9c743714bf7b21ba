//! Look-ups in what is kept of a history, and the changes that commands make of it.
//!
//! Versions and runs are numbered from 1 here, as after the opening in which version 0 is alone.

ghost use Rattle.std.specs.Prelude.{◌≡◌, ◌<◌, ◌≤◌, ◌-◌, ◌+◌, ◌∷◌, ◌++◌, [], length, map, min, IsSome, IfOk, OnOk, slice_get};
ghost use Rattle.pst_history.specs.History.{numbered, called_more, granted_more, closed_run, dropped_run, call_of};
ghost use Rattle.pst_history.specs.Since.{Opens, Changes};
ghost use Rattle.pst_history.specs.declared.history.TheConstants.{RUNS};

use crate::history::{Descent, NamedCall, NamedCalls, Run, RunState, Since};
use pst_base::{NoMemory, Numbers, RunNo, Text, VersionNo};
use pst_script::{Call, Parents};
use std::alloc::Global;

/// The version with a number: the run that made it, and its parent. Version 0 is of the opening, and made by no run.
pub fn version_of(history: &Since, number: u32) -> Descent
    requires above { 0 < number }
    requires there { number ≤ length history.now.versions }
    ensures { slice_get history.now.versions (number - 1) ≡ Some result }
{
    history.versions.items[number as usize - 1]
}

/// The index of the run with a number that a run has, from 1 on. Who keeps something beside each run finds it by this.
pub fn index_of(history: &Since, number: RunNo) -> usize
    requires { IsSome (numbered 1 history.now.runs number.0) }
    ensures within { result < length history.now.runs }
    ensures number { number.0 ≡ 1 + result }
{
    number.0 as usize - 1
}

/// The run with a number that a run has, from 1 on. Its state says whether it goes on, was carried to its end or given up.
pub fn run_of(history: &Since, number: RunNo) -> &Run
    requires { IsSome (numbered 1 history.now.runs number.0) }
    ensures { numbered 1 history.now.runs number.0 ≡ Some result.now }
{
    &history.runs.items[index_of(history, number)]
}

/// The next run number, from 1 to 1,048,577. A query is given it too, but does not take it.
pub fn next_number(history: &Since) -> RunNo
    requires { length history.now.runs ≤ RUNS }
    ensures { result.0 ≡ 1 + length history.now.runs }
{
    RunNo(history.runs.items.len() as u32 + 1)
}

/// The parents of the versions after 0, in their order, as `versions` tells them. It errs only where no memory is left.
///
/// # Errors
/// Where there was no memory.
pub fn parents(alloc: Global, history: &Since) -> Result<Parents, NoMemory>
    ensures { IfOk result (λ p. p ≡ map (λ v. v.parent) history.now.versions) }
{
    let mut items = Vec::with_capacity(alloc, history.versions.items.len())?;
    for version in &history.versions.items {
        items.push(version.parent)?;
    }
    Ok(Parents::from_vec(items))
}

/// A call of a run, of copies of its parts, since a run outlives the line that names them. It errs only where no memory is left.
///
/// # Errors
/// Where there was no memory.
pub fn named_call(procedure: &Text, arguments: &Numbers) -> Result<NamedCall, NoMemory>
    ensures { IfOk result (λ call. call ≡ record { procedure = procedure.now; arguments = arguments.now }) }
{
    Ok(NamedCall {
        procedure: procedure.copy()?,
        arguments: arguments.copy()?,
    })
}

/// The one call of a line, as the calls of a run. It errs only where no memory is left.
///
/// # Errors
/// Where there was no memory.
pub fn one_call(alloc: Global, call: &Call) -> Result<NamedCalls, NoMemory>
    ensures { IfOk result (λ calls. calls ≡ call_of call.now ∷ []) }
{
    let mut items = Vec::with_capacity(alloc, 1)?;
    items.push(named_call(&call.procedure, &call.arguments)?)?;
    Ok(NamedCalls::from_vec(items))
}

/// Opens a run on a version, with these calls, under the budget that stands and without a charge. It errs only where no memory is
/// left.
///
/// # Errors
/// Where there was no memory.
pub fn open(history: &mut Since, version: VersionNo, calls: NamedCalls) -> Result<(), NoMemory>
    ensures { OnOk result (Opens version calls history.old history.new) }
{
    let budget = history.budget;
    history.runs.items.push(Run {
        parent: version,
        calls,
        budget,
        granted: 0,
        state: RunState::Open,
    })?;
    Ok(())
}

/// Adds a call behind those of a run. It errs only where no memory is left.
///
/// # Errors
/// Where there was no memory.
pub fn add(history: &mut Since, number: RunNo, call: NamedCall) -> Result<(), NoMemory>
    requires { IsSome (numbered 1 history.old.runs number.0) }
    ensures { OnOk result (Changes (called_more call) number.0 history.old history.new) }
{
    let index = index_of(history, number);
    history.runs.items[index].calls.items.push(call)?;
    Ok(())
}

/// Grants a run so many charges more, but in all never more than its budget.
pub fn grant(history: &mut Since, number: RunNo, charges: u32)
    requires { IsSome (numbered 1 history.old.runs number.0) }
    ensures { Changes (granted_more charges) number.0 history.old history.new }
{
    let index = index_of(history, number);
    let run = &mut history.runs.items[index];
    run.granted = raised(run.granted, charges, run.budget);
}

/// So many charges more than were granted, up to the budget.
fn raised(granted: u32, charges: u32, budget: u32) -> u32
    ensures { result ≡ min (granted + charges) budget }
{
    granted.saturating_add(charges).min(budget)
}

/// Grants a run its whole budget, and closes it. Whether it makes a version is said by its end.
pub fn shut(history: &mut Since, number: RunNo)
    requires { IsSome (numbered 1 history.old.runs number.0) }
    ensures { Changes closed_run number.0 history.old history.new }
{
    let index = index_of(history, number);
    let run = &mut history.runs.items[index];
    run.granted = run.budget;
    run.state = RunState::Closed;
}

/// Gives a run up. It keeps its number and its grant, since what it did is counted all the same.
pub fn give_up(history: &mut Since, number: RunNo)
    requires { IsSome (numbered 1 history.old.runs number.0) }
    ensures { Changes dropped_run number.0 history.old history.new }
{
    let index = index_of(history, number);
    history.runs.items[index].state = RunState::Dropped;
}

/// Makes a version of a run that is done, on the heap of this parent, and gives its number, from 1 to 1,048,577. It errs only where
/// no memory is left.
///
/// # Errors
/// Where there was no memory.
pub fn publish(history: &mut Since, run: RunNo, parent: VersionNo) -> Result<VersionNo, NoMemory>
    requires { length history.old.versions ≤ RUNS }
    ensures number { IfOk result (λ version. version.0 ≡ 1 + length history.old.versions) }
    ensures made { OnOk result (history.new ≡ record history.old { versions = history.old.versions ++ record { run = run; parent = parent } ∷ [] }) }
{
    history.versions.items.push(Descent { run, parent })?;
    Ok(VersionNo(history.versions.items.len() as u32))
}
