//! A long run. The built program of the tests runs it alone where it is given its name, and can then be timed.

ghost use Rattle.pst_forest.specs.Forest.{state_of};
ghost use Rattle.pst_machine_cases.specs.Session.{IsOpened};

use super::session::{Session, Trouble};
use pst_base::RunNo;
use pst_forest::Forest;
use pst_machine::{Activation, Progress};

/// The charges of the loop: two a turn, one for the last test and one for the print.
const CHARGES: u32 = 10_000_000;

/// The loop is granted all its charges but one, and then the last one. It answers how the run stands after each grant, and how
/// many numbers it has printed by then.
fn count_in_two(
    session: &mut Session,
    run: &mut Activation<Forest>,
) -> Result<[(Progress, usize); 2], Trouble>
    requires { IsOpened session.old.code (state_of session.old.forest) run.old.stage }
{
    session.call(run, b"count", &[4_999_999])?;
    let most = session.advance(run, CHARGES - 1)?;
    let before = run.printed().len();
    let last = session.advance(run, 1)?;
    Ok([(most, before), (last, run.printed().len())])
}

#[test]
fn ten_million_charges_of_a_counting_loop(rt: HostRuntime) -> Result<(), Trouble> {
    let mut session = Session::new(rt.alloc())?;
    let mut run = session.open(RunNo(1))?;
    let stands = count_in_two(&mut session, &mut run)?;
    assert_eq!(rt; stands, [(Progress::Running, 0), (Progress::Done, 1)]);
    assert_eq!(rt; run.printed(), [4_999_999].as_slice());
    Ok(())
}
