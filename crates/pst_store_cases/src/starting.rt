//! Sessions at their opening.

ghost use Rattle.std.specs.Prelude.{◌≡◌, None, IfOk, OnOk};
ghost use Rattle.pst_history.specs.Direct.{meaning_of};
ghost use Rattle.pst_engine.specs.Stands.{IsStartedHeap};
ghost use Rattle.pst_forest.specs.Forest.{state_of};
ghost use Rattle.pst_store.specs.Whole.{state_in};
ghost use Rattle.pst_store_cases.specs.Going.{IsGoing};

use crate::session::Session;
use pst_base::NoMemory;
use pst_engine_runs::{Compiled, Meant};
use pst_engine_testing::{Trouble, compiled, forest_for};
use pst_forest::Forest;
use pst_order::Order;
use pst_store::StoreOf;
use pst_store_arena::FatNodes;
use std::alloc::Global;

/// Starts an empty store for a program.
fn start<O: Order + Drop, N: FatNodes>(
    alloc: Global,
    code: &Compiled,
    store: &mut StoreOf<O, N>,
) -> Result<(), NoMemory>
    requires { store.old ≡ None }
    ensures { OnOk result (IsStartedHeap (meaning_of code.now) (state_in store.new)) }
{
    store.start(alloc, code.code().shape())?;
    Ok(())
}

/// A session over a store, for the text of a program.
pub fn over_store<O: Order + Drop, N: FatNodes>(
    alloc: Global,
    text: &str,
) -> Result<Session<StoreOf<O, N>>, Trouble>
    ensures { IfOk result (λ session. IsGoing session.code session.engine (state_in session.heap)) }
{
    let code = compiled(alloc, text.as_bytes())?;
    let mut store = StoreOf::empty();
    start(alloc, &code, &mut store)?;
    Ok(Session::new(alloc, code, store))
}

/// A session over a forest, for the text of a program.
pub fn over_forest(alloc: Global, text: &str) -> Result<Session<Forest>, Trouble>
    ensures { IfOk result (λ session. IsGoing session.code session.engine (state_of session.heap)) }
{
    let code = compiled(alloc, text.as_bytes())?;
    let forest = forest_for(alloc, &code)?;
    Ok(Session::new(alloc, code, forest))
}
