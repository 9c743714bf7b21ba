//! How a session and a store begin, as a law.

ghost use Rattle.std.specs.Prelude.{◌≡◌, false};
ghost use Rattle.pst_history.specs.History.{begun, opening};
ghost use Rattle.pst_line.specs.Store.{IsStarted};
ghost use Rattle.pst_linerun.specs.Standing.{SessionStands};
ghost use Rattle.pst_history.specs.declared.history.TheConstants.{BUDGET};

use crate::session::LineSession;
use pst_engine_runs::Meant;
use pst_line::calls::LineCalls;

/// A new session and a store as it is started stand for the opening of a script.
pub fn a_new_session_stands<S: LineCalls, C: Meant>(code: &C, store: &S, session: &LineSession)
    requires new { session.now ≡ record { failed = false; budget = BUDGET; next_run = record { 0 = 1 } } }
    requires store { IsStarted (C.meant code.now).meaning.shape (S.stored store.now) }
    ensures { SessionStands (C.meant code.now).meaning session.now (S.state store.now) (S.stored store.now) (begun (opening (C.meant code.now).meaning.shape)) }
{
    store.known_line();
    let _ = code.code();
}
