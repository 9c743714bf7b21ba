//! A run granted piece by piece.

ghost use Rattle.pst_forest.specs.Forest.{state_of};
ghost use Rattle.pst_machine_cases.specs.Session.{IsOpened};

use super::session::{Session, Trouble};
use pst_base::{Counts, RunNo};
use pst_forest::Forest;
use pst_machine::{Activation, Progress, a_run_stays_ready, slices_add_up};

/// Two calls of `add` after a run without a call was granted nothing: the first has its four charges at once, the second in two
/// pieces. It answers how the run stands after each grant.
fn add_two(session: &mut Session, run: &mut Activation<Forest>) -> Result<[Progress; 4], Trouble>
    requires { IsOpened session.old.code (state_of session.old.forest) run.old.stage }
{
    let bare = session.advance(run, 0)?;
    session.call(run, b"add", &[5])?;
    let first = session.advance(run, 4)?;
    session.call(run, b"add", &[7])?;
    let half = session.advance(run, 3)?;
    let second = session.advance(run, 1)?;
    Ok([bare, first, half, second])
}

#[test]
fn a_run_opened_without_a_call_takes_two(rt: HostRuntime) -> Result<(), Trouble> {
    let mut session = Session::new(rt.alloc())?;
    let mut run = session.open(RunNo(1))?;
    let wanted = [
        Progress::Done,
        Progress::Done,
        Progress::Running,
        Progress::Done,
    ];
    assert_eq!(rt; add_two(&mut session, &mut run)?, wanted);
    let counts = Counts {
        records: 3,
        pointer_writes: 4,
        value_writes: 2,
    };
    assert_eq!(rt; session.counts(), counts);
    Ok(())
}

#[test]
fn laws_of_runs_hold_over_a_forest(rt: HostRuntime) {
    a_run_stays_ready::<Forest>();
    slices_add_up::<Forest>();
}
