//! The lines behind an image, each answered before the next one is read.

ghost use Rattle.std.specs.Prelude.{◌≡◌, ◌≤◌, Err};
ghost use Rattle.pst_io.specs.Causes.{Rose};
ghost use Rattle.pst_io.specs.Input.{bytes_read};
ghost use Rattle.pst_io.specs.Lines.{IsOpen};
ghost use Rattle.pst_cli_scripts.specs.Reading.{IsNear};
ghost use Rattle.pst_cli_scripts.specs.Sessions.{StandForSome};
ghost use Rattle.pst_cli_serving.specs.Storing.{IsBroken, IsLeft};
ghost use Rattle.pst_cli_serve.specs.Served.{ServesRest};

use crate::answer::answer_served;
use pst_cli_scripts::{Session, Stop};
use pst_cli_serving::Running;
use pst_io::{Lines, Sink, Source};
use pst_order::Order;
use pst_store::StoreOf;
use pst_store_arena::FatNodes;
use std::alloc::Global;

/// Answers the lines that are left.
///
/// # Errors
/// Where a read or a write failed, the input is too long, or there was no memory: the lines before are answered.
pub(crate) fn serve_script<S: Source, K: Sink, O: Order + Drop, N: FatNodes>(
    alloc: Global,
    session: &mut Running<O, N>,
    store: &mut StoreOf<O, N>,
    lines: &mut Lines,
    source: &mut S,
    sink: &mut K,
) -> Result<(), Stop>
    requires stands { StandForSome ⟦<Running<O, N> as Session>⟧.stands session.old store.old }
    requires open { IsOpen lines.old (S.left source.old) }
    requires near { IsNear lines.old.input }
    ensures served { ServesRest session.old.code ⟦<Running<O, N> as Session>⟧.stands IsLeft IsBroken session.old store.old store.new result S.left lines.old source.old lines.new source.new K.taken sink.old sink.new }
    ensures within { bytes_read lines.new.input ≤ lines.new.input.most }
    ensures limit { lines.new.input.most ≡ lines.old.input.most }
    ensures later { S.faults source.old ≤ S.faults source.new }
    ensures sink_later { K.faults sink.old ≤ K.faults sink.new }
    ensures read { result ≡ Err Stop.Read → Rose (S.faults source.old) (S.faults source.new) }
    ensures write { result ≡ Err Stop.Write → Rose (K.faults sink.old) (K.faults sink.new) }
{
    let mut text = Vec::new(alloc);
    'answering: loop {
        session.known(store);
        match lines.next(source) {
            Ok(true) => {}
            Ok(false) => return Ok(()),
            Err(fault) => return Err(Stop::from(fault)),
        }
        match answer_served(alloc, session, store, sink, lines.line(), &mut text) {
            Ok(()) => {}
            Err(stop) => return Err(stop),
        }
    }
}
