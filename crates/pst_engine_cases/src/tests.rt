//! An engine over a forest beside a replayer.

ghost use Rattle.std.specs.Prelude.{IfOk};
ghost use Rattle.pst_forest.specs.Forest.{state_of};
ghost use Rattle.pst_engine_cases.specs.Twins.{CanAnswer};

use crate::driving::{drive, tell_anew};
use crate::forms::Forms;
use crate::lines::PROGRAM;
use crate::twins::Twins;
use pst_engine_testing::{Random, Trouble, compiled, forest_for, program_of};
use pst_forest::Forest;
use std::alloc::Global;

/// A list of numbers.
const LIST: &str = "\
record Node 2 { val key: int; ptr next: Node; }
root first: Node;
proc add(key: int) {
  var n: Node;
  n = new Node;
  n.key = key;
  n.next = first;
  first = n;
}
query sum() {
  var n: Node;
  var s: int;
  n = first;
  while n != null {
    s = s + n.key;
    n = n.next;
  }
  print s;
}
";

/// Both for a program, at the opening.
fn begin(alloc: Global, text: &str) -> Result<Twins<Forest>, Trouble>
    ensures { IfOk result (λ twins. CanAnswer twins.code twins.engine (state_of twins.heap) twins.program twins.replayer) }
{
    let code = compiled(alloc, text.as_bytes())?;
    let program = program_of(alloc, text.as_bytes())?;
    let forest = forest_for(alloc, &code)?;
    Ok(Twins::new(alloc, code, program, forest))
}

/// Runs that are open side by side, and what they make.
const OPEN_RUNS: &str = "\
open 0 add 1
=> run 1
step 1 3
=> run 1 running
run 0 add 10
=> version 1
step 1 1
=> run 1 done
close 1
=> version 2
step 1 1
=> refused run
open 1
=> run 3
call 3 add 100
=> run 3 running
drop 3
=> dropped 3
run 9 add 1
=> refused version
query 2 sum
=> | 1
=> ok
query 1 sum
=> | 10
=> ok
versions
=> 0
=> 1 from 0
=> 2 from 0
stats
=> records 3 pointers 4 values 2 bound 31
";

#[test]
fn open_runs_are_answered_by_hand(rt: HostRuntime) -> Result<(), Trouble> {
    let mut twins = begin(rt.alloc(), LIST)?;
    let told = tell_anew(rt.alloc(), &mut twins, OPEN_RUNS)?;
    assert!(rt; told.as_slice() == OPEN_RUNS.as_bytes());
    Ok(())
}

/// A run that is open where the engine is made anew.
const BEFORE: &str = "\
budget 6
=> budget 6
run 0 add 1
=> version 1
open 1 add 10
=> run 2
step 2 3
=> run 2 running
";

/// What becomes of it then.
const AFTER: &str = "\
step 2 1
=> run 2 done
call 2 add 100
=> run 2 running
close 2
=> trap budget at 7
run 1 add 2
=> version 2
open 2
=> run 4
query 2 sum
=> trap budget at 16
versions
=> 0
=> 1 from 0
=> 2 from 1
";

/// Tells a story anew, and a second one after the engine is made anew.
fn tell_twice(alloc: Global, before: &str, after: &str) -> Result<(Vec<u8>, Vec<u8>), Trouble> {
    let mut twins = begin(alloc, LIST)?;
    let first = tell_anew(alloc, &mut twins, before)?;
    let mut twins = twins.renewed();
    let second = tell_anew(alloc, &mut twins, after)?;
    Ok((first, second))
}

#[test]
fn an_engine_of_the_same_four_fields_goes_on(rt: HostRuntime) -> Result<(), Trouble> {
    let (before, after) = tell_twice(rt.alloc(), BEFORE, AFTER)?;
    assert!(rt; before.as_slice() == BEFORE.as_bytes());
    assert!(rt; after.as_slice() == AFTER.as_bytes());
    Ok(())
}

/// The forms that the replies to a long script have.
const FORMS: &str = "\
version \nok\nrun \nrun  running\nrun  done\ndropped \nbudget \n from \nrecords  pointers  values  bound \n\
trap null at \ntrap indegree at \ntrap overflow at \ntrap divide at \ntrap budget at \ntrap depth at \n\
refused name\nrefused arguments\nrefused version\nrefused run\nrefused open";

/// Gives both a long script, and a second one after the engine is made anew.
fn drive_twice(alloc: Global, forms: &mut Forms) -> Result<(), Trouble> {
    let mut twins = begin(alloc, PROGRAM)?;
    let mut random = Random::new(1);
    drive(alloc, &mut twins, &mut random, forms, 10_000)?;
    let mut twins = twins.renewed();
    drive(alloc, &mut twins, &mut random, forms, 11_000)
}

#[test]
fn engine_and_replayer_answer_alike(rt: HostRuntime) -> Result<(), Trouble> {
    let mut forms = Forms::new(rt.alloc());
    drive_twice(rt.alloc(), &mut forms)?;
    assert!(rt; forms.has_all(FORMS.as_bytes()));
    Ok(())
}
