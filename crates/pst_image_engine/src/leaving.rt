//! What an engine leaves. Each law is the contract of a function that does nothing.

ghost use Rattle.std.specs.Prelude.{◌^◌, IsSomeAnd};
ghost use Rattle.pst_program.specs.Sound.{CountsWithin};
ghost use Rattle.pst_engine.specs.Stands.{MayApply};
ghost use Rattle.pst_store.specs.Whole.{state_in};
ghost use Rattle.pst_image_meaning.specs.Left.{IsLeftStore};
ghost use Rattle.pst_image_engine.specs.Counted.{CountsLaw, FewCountsLaw, OpeningCountsLaw};
ghost use Rattle.pst_image_engine.specs.Orders.{RunOrderLaw};

use pst_engine::Engine;
use pst_engine_runs::Meant;
use pst_order::Walked;
use pst_store::StoreOf;
use pst_store_arena::Listed;

/// An engine that stands for a history over a store leaves one of which an image can be made, where it counted few: its places,
/// versions, names and counts are such as the rules of an image ask for.
pub fn an_engine_leaves<O: Walked + Drop, N: Listed, C: Meant>(
    code: &C,
    store: &StoreOf<O, N>,
    engine: &Engine<StoreOf<O, N>>,
)
    requires stands { MayApply (C.meant code.now) engine.now (state_in store.now) }
    requires counts { CountsWithin (state_in store.now).counts (2 ^ 50) }
    ensures left { IsSomeAnd store.now (λ s. IsLeftStore s engine.now.next_run.0) }
{
    let _ = code;
    let _ = engine;
    store.whole();
}

/// Forks in the order of runs give nested versions.
pub fn orders()
    ensures run_order { RunOrderLaw }
{}

/// A history whose opening counted few counts few, the opening of version 0 alone counted few, and few is at most 2^50.
pub fn counts()
    ensures history { CountsLaw }
    ensures within { FewCountsLaw }
    ensures opening { OpeningCountsLaw }
{}
