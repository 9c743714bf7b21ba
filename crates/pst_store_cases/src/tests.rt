//! The engine over stores beside the engine over a forest, and the nodes of worked scripts.

ghost use Rattle.pst_forest.specs.Forest.{state_of};
ghost use Rattle.pst_store.specs.Whole.{state_in};
ghost use Rattle.pst_store_cases.specs.Going.{IsGoing};

use crate::made_up::{MadeUp, PROGRAM, make_up};
use crate::measured::{answers_at_rest, most_growth};
use crate::session::{Session, have_same_dumps};
use crate::starting::{over_forest, over_store};
use pst_base::{Counts, NoMemory};
use pst_engine_testing::Trouble;
use pst_forest::Forest;
use pst_order::{LabelOrder, Order, RowOrder};
use pst_store::StoreOf;
use pst_store_arena::{Arena, FatNodes};
use pst_versions::VersionedHeap;
use std::alloc::Global;

/// How many records were made and fields written: fewer than the calls of the heap, which also loads.
fn calls_in(counts: Counts) -> u64 {
    counts
        .records
        .saturating_add(counts.pointer_writes)
        .saturating_add(counts.value_writes)
}

/// Whether a forest gives these replies to a script, and keeps the versions of a store.
fn answers_alike<O: Order + Drop, N: FatNodes>(
    alloc: Global,
    store: &Session<StoreOf<O, N>>,
    forest: &mut Session<Forest>,
    script: &[u8],
    replies: &[u8],
) -> Result<bool, Trouble>
    requires store { IsGoing store.now.code store.now.engine (state_in store.now.heap) }
    requires forest { IsGoing forest.old.code forest.old.engine (state_of forest.old.heap) }
{
    let answered = forest.replies(alloc, script)?;
    Ok(answered.as_slice() == replies && have_same_dumps(alloc, store, forest)?)
}

/// Whether a forest answers a script as a store did, and keeps the same versions.
fn is_alike<O: Order + Drop, N: FatNodes>(
    alloc: Global,
    store: &Session<StoreOf<O, N>>,
    program: &str,
    script: &[u8],
    replies: &[u8],
) -> Result<bool, Trouble>
    requires { IsGoing store.now.code store.now.engine (state_in store.now.heap) }
{
    let mut forest = over_forest(alloc, program)?;
    answers_alike(alloc, store, &mut forest, script, replies)
}

/// Whether a script that is made up over a store makes records and writes fields 100,000 times, and a forest answers and keeps
/// it alike.
fn keeps_a_long_script_of<O: Order + Drop, N: FatNodes>(
    alloc: Global,
    store: &mut Session<StoreOf<O, N>>,
) -> Result<bool, Trouble>
    requires { IsGoing store.old.code store.old.engine (state_in store.old.heap) }
{
    let made = make_up(alloc, store, 1, 2_300)?;
    let alike = is_alike(alloc, store, PROGRAM, &made.script, &made.replies)?;
    Ok(alike && calls_in(store.heap.counts()) >= 100_000)
}

/// Whether a made-up script makes records and writes fields 100,000 times, and store and forest answer and keep it alike.
fn keeps_a_long_script<O: Order + Drop, N: FatNodes>(alloc: Global) -> Result<bool, Trouble> {
    let mut store = over_store::<O, N>(alloc, PROGRAM)?;
    keeps_a_long_script_of(alloc, &mut store)
}

#[test]
fn a_long_script_is_answered_and_kept_alike_by_store_and_forest(
    rt: HostRuntime,
) -> Result<(), Trouble> {
    assert!(rt; keeps_a_long_script::<LabelOrder, Arena>(rt.alloc())?);
    Ok(())
}

/// Whether a store answers a made-up script as a forest did, at rest after each line, and keeps the same versions.
fn answers_alike_at_rest<O: Order + Drop, N: FatNodes>(
    alloc: Global,
    store: &mut Session<StoreOf<O, N>>,
    forest: &Session<Forest>,
    made: &MadeUp,
) -> Result<bool, Trouble>
    requires store { IsGoing store.old.code store.old.engine (state_in store.old.heap) }
    requires forest { IsGoing forest.now.code forest.now.engine (state_of forest.now.heap) }
{
    let answered = answers_at_rest(alloc, store, &made.script, &made.replies)?;
    Ok(answered && have_same_dumps(alloc, store, forest)?)
}

/// Whether a new store answers a made-up script as a forest did, at rest after each line, and keeps the same versions.
fn is_alike_at_rest<O: Order + Drop, N: FatNodes>(
    alloc: Global,
    forest: &Session<Forest>,
    made: &MadeUp,
) -> Result<bool, Trouble>
    requires { IsGoing forest.now.code forest.now.engine (state_of forest.now.heap) }
{
    let mut store = over_store::<O, N>(alloc, PROGRAM)?;
    answers_alike_at_rest(alloc, &mut store, forest, made)
}

/// Whether a store answers and keeps a short script, which is made up over a forest, as the forest does.
fn keeps_a_short_script_of<O: Order + Drop, N: FatNodes>(
    alloc: Global,
    forest: &mut Session<Forest>,
) -> Result<bool, Trouble>
    requires { IsGoing forest.old.code forest.old.engine (state_of forest.old.heap) }
{
    let made = make_up(alloc, forest, 2, 300)?;
    is_alike_at_rest::<O, N>(alloc, forest, &made)
}

/// Whether a store and a forest answer and keep a short script alike.
fn keeps_a_short_script<O: Order + Drop, N: FatNodes>(alloc: Global) -> Result<bool, Trouble> {
    let mut forest = over_forest(alloc, PROGRAM)?;
    keeps_a_short_script_of::<O, N>(alloc, &mut forest)
}

#[test]
fn a_script_is_answered_and_kept_alike_over_either_order(rt: HostRuntime) -> Result<(), Trouble> {
    assert!(rt; keeps_a_short_script::<LabelOrder, Arena>(rt.alloc())?);
    assert!(rt; keeps_a_short_script::<RowOrder, Arena>(rt.alloc())?);
    Ok(())
}

/// A script for a list, of some shared and some parted versions.
const LIST_SCRIPT: &str =
    "run 0 add 5\nrun 1 add 7\nrun 1 fill 4\nopen 2 add 9\nopen 2 fill 3\nstep 5 7\nstep 4 2\nrun 3 add -1\n\
     call 4 fill 2\nclose 5\nclose 4\nrun 6 bad\nquery 6 sum\nquery 5 sum\nquery 0 sum\nversions\nstats\n";

/// The same for a ring.
const RING_SCRIPT: &str =
    "run 0 make 1\nrun 1 insert 2\nrun 2 insert 3\nrun 2 insert 4\nrun 3 move\nrun 5 set 8\nrun 5 insert 6\nrun 1 turn 9\n\
     open 7 move\ncall 9 set 0\ncall 9 insert 7\nstep 9 4\nrun 7 turn 3\nclose 9\nquery 9 count\nquery 10 see\nversions\nstats\n";

/// The same for a search tree.
const TREE_SCRIPT: &str =
    "run 0 put 50\nrun 1 put 20\nrun 2 put 90\nrun 1 put 70\nrun 3 put 30\nrun 5 put 10\nopen 3 put 95\nopen 3 put 15\n\
     step 7 6\nstep 8 6\nclose 8\nclose 7\nrun 4 put 60\nrun 6 put 20\nquery 6 all\nquery 8 all\nversions\nstats\n";

/// Whether a store and a new forest answer and keep a script alike.
fn keeps_alike_of<O: Order + Drop, N: FatNodes>(
    alloc: Global,
    store: &mut Session<StoreOf<O, N>>,
    program: &str,
    script: &[u8],
) -> Result<bool, Trouble>
    requires { IsGoing store.old.code store.old.engine (state_in store.old.heap) }
{
    let replies = store.replies(alloc, script)?;
    is_alike(alloc, store, program, script, replies.as_slice())
}

/// Whether store and forest answer and keep a script alike.
fn keeps_alike<O: Order + Drop, N: FatNodes>(
    alloc: Global,
    program: &str,
    script: &str,
) -> Result<bool, Trouble> {
    let mut store = over_store::<O, N>(alloc, program)?;
    keeps_alike_of(alloc, &mut store, program, script.as_bytes())
}

#[test]
fn worked_scripts_are_answered_and_kept_alike_by_store_and_forest(
    rt: HostRuntime,
) -> Result<(), Trouble> {
    let alloc = rt.alloc();
    assert!(rt; keeps_alike::<LabelOrder, Arena>(alloc, pst_samples::list(), LIST_SCRIPT)?);
    assert!(rt; keeps_alike::<LabelOrder, Arena>(alloc, pst_samples::ring(), RING_SCRIPT)?);
    assert!(rt; keeps_alike::<LabelOrder, Arena>(alloc, pst_samples::tree(), TREE_SCRIPT)?);
    Ok(())
}

/// How many nodes a store has after a script, if it gave these replies and rested after each line.
fn nodes_at_rest<O: Order + Drop, N: FatNodes>(
    alloc: Global,
    store: &mut Session<StoreOf<O, N>>,
    script: &str,
    wanted: &str,
) -> Result<Option<u64>, Trouble>
    requires { IsGoing store.old.code store.old.engine (state_in store.old.heap) }
{
    let rested = answers_at_rest(alloc, store, script.as_bytes(), wanted.as_bytes())?;
    Ok(rested.then_some(store.heap.nodes()))
}

/// How many nodes the store of a program has after a script, if it gave these replies and rested after each line.
fn nodes_after<O: Order + Drop, N: FatNodes>(
    alloc: Global,
    program: &str,
    script: &str,
    wanted: &str,
) -> Result<Option<u64>, Trouble> {
    let mut store = over_store::<O, N>(alloc, program)?;
    nodes_at_rest(alloc, &mut store, script, wanted)
}

/// A cell that holds a number. Its record's capacity is 2.
const CELL: &str = "\
record Cell 1 { val number: int; }
root cell: Cell;
proc make() {
  var new_cell: Cell;
  new_cell = new Cell;
  cell = new_cell;
}
proc set(number: int) {
  cell.number = number;
}
query see() {
  print cell.number;
}
";

#[test]
fn a_cell_in_three_versions_has_from_3_to_14_nodes(rt: HostRuntime) -> Result<(), Trouble> {
    let script = "run 0 make\nrun 1 set 10\nrun 1 set 20\nrun 1 set 30\n\
        query 1 see\nquery 2 see\nquery 3 see\nquery 4 see\nstats";
    let wanted = "version 1\nversion 2\nversion 3\nversion 4\n\
        | 0\nok\n| 10\nok\n| 20\nok\n| 30\nok\nrecords 2 pointers 1 values 3 bound 14\n";
    let nodes = nodes_after::<LabelOrder, Arena>(rt.alloc(), CELL, script, wanted)?;
    assert!(rt; nodes.is_some_and(|nodes| 3 <= nodes && nodes <= 14));
    Ok(())
}

/// A script with the replies that are wanted.
#[derive(Drop)]
struct Told {
    script: String,
    wanted: String,
}

/// Adds a line with its replies.
fn tell(told: &mut Told, line: &str, replies: &str) -> Result<(), NoMemory> {
    told.script.push_str(line)?;
    told.wanted.push_str(replies)
}

/// Adds a line that makes a version.
fn tell_a_turn(alloc: Global, told: &mut Told, number: u32) -> Result<(), NoMemory> {
    let line = format!(in alloc; "run 1 turn {number}\n")?;
    let reply = format!(in alloc; "version {number}\n")?;
    tell(told, &line, &reply)
}

/// Adds a line that looks at a version.
fn tell_a_look(alloc: Global, told: &mut Told, number: u32) -> Result<(), NoMemory> {
    let line = format!(in alloc; "query {number} see\n")?;
    let reply = format!(in alloc; "| {number}\n| 1\nok\n")?;
    tell(told, &line, &reply)
}

/// Adds forty lines that make a version each.
fn tell_turns(alloc: Global, told: &mut Told) -> Result<(), NoMemory> {
    for number in 2..42 {
        tell_a_turn(alloc, told, number)?;
    }
    Ok(())
}

/// Adds a line that looks at each version.
fn tell_looks(alloc: Global, told: &mut Told) -> Result<(), NoMemory> {
    for number in 1..42 {
        tell_a_look(alloc, told, number)?;
    }
    Ok(())
}

/// Adds a script that writes a record in forty versions.
fn tell_forty_versions(alloc: Global, told: &mut Told) -> Result<(), NoMemory> {
    tell(told, "run 0 make 1\n", "version 1\n")?;
    tell_turns(alloc, told)?;
    tell_looks(alloc, told)?;
    tell(told, "stats", "records 2 pointers 83 values 41 bound 582\n")
}

#[test]
fn a_record_that_is_written_in_forty_versions_has_from_5_to_582_nodes(
    rt: HostRuntime,
) -> Result<(), Trouble> {
    let alloc = rt.alloc();
    let mut told = Told {
        script: String::new(alloc),
        wanted: String::new(alloc),
    };
    tell_forty_versions(alloc, &mut told)?;
    let ring = pst_samples::ring();
    let nodes = nodes_after::<LabelOrder, Arena>(alloc, ring, &told.script, &told.wanted)?;
    assert!(rt; nodes.is_some_and(|nodes| 5 <= nodes && nodes <= 582));
    Ok(())
}

/// Items in a list. The capacity of an item's nodes is 4.
const ITEMS: &str = "\
record Item 1 { val key: int; ptr next: Item; }
root first: Item;
proc build(n: int) {
  var i: Item;
  var rest: Item;
  while n > 0 {
    i = new Item;
    rest = first;
    first = i;
    i.next = rest;
    n = n - 1;
  }
}
proc set(at: int, key: int) {
  var i: Item;
  i = first;
  while at > 0 {
    i = i.next;
    at = at - 1;
  }
  i.key = key;
}
";

/// By how many nodes a store grows at most at one of four steps of the run that the script opens, if these steps write once.
fn growth_in_steps<O: Order + Drop, N: FatNodes>(
    alloc: Global,
    items: &mut Session<StoreOf<O, N>>,
    script: &str,
) -> Result<Option<u64>, Trouble>
    requires { IsGoing items.old.code items.old.engine (state_in items.old.heap) }
{
    items.replies(alloc, script.as_bytes())?;
    let before = calls_in(items.heap.counts());
    let growth = most_growth(alloc, items, b"step 82 1", 4)?;
    let wrote_once = calls_in(items.heap.counts()) == before.saturating_add(1);
    Ok(wrote_once.then_some(growth))
}

/// By how many nodes the store grows at one write: at most at one of four steps of the run that the script opens, if these
/// steps write once.
fn growth_at_one_write<O: Order + Drop, N: FatNodes>(
    alloc: Global,
    script: &str,
) -> Result<Option<u64>, Trouble> {
    let mut items = over_store::<O, N>(alloc, ITEMS)?;
    growth_in_steps(alloc, &mut items, script)
}

/// Adds a line that writes one of forty items.
fn write_an_item(alloc: Global, script: &mut String, number: u32) -> Result<(), NoMemory> {
    let place = number % 40;
    script.push_str(&format!(in alloc; "run 1 set {place} {number}\n")?)
}

/// Adds a script that makes forty items, writes each in two versions, and opens a run that writes the first.
fn write_many_items(alloc: Global, script: &mut String) -> Result<(), NoMemory> {
    script.push_str("run 0 build 40\n")?;
    for number in 0..80 {
        write_an_item(alloc, script, number)?;
    }
    script.push_str("open 1 set 0 7")
}

#[test]
fn one_write_splits_a_node_of_each_of_many_items(rt: HostRuntime) -> Result<(), Trouble> {
    let alloc = rt.alloc();
    let mut script = String::new(alloc);
    write_many_items(alloc, &mut script)?;
    let growth = growth_at_one_write::<LabelOrder, Arena>(alloc, &script)?;
    assert!(rt; growth.is_some_and(|growth| growth >= 20));
    Ok(())
}
