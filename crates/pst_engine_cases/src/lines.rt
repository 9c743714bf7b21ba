//! Lines of a script, made up as it runs.

use crate::twins::Twins;
use pst_base::NoMemory;
use pst_engine::Engine;
use pst_engine_testing::Random;
use pst_versions::VersionedHeap;
use std::alloc::Global;

/// The program that the lines are for: a list whose procedures make, move and drop its items, some of which trap, and some of
/// which are long.
pub const PROGRAM: &str = "\
record Node 3 { val key: int; ptr next: Node; ptr back: Node; }
root first: Node;
root size: int;
proc add(k: int) {
  var n: Node;
  n = new Node;
  n.key = k;
  n.next = first;
  if first != null {
    first.back = n;
  }
  first = n;
  size = size + 1;
}
proc fill(n: int) {
  while n > 0 {
    call add(n);
    n = n - 1;
  }
}
proc cut() {
  print first.key;
  first = first.next;
  size = size - 1;
}
proc set(i: int, k: int) {
  var n: Node;
  n = call node(i);
  n.key = n.key * k;
}
proc join(n: int) {
  var m: Node;
  while n > 0 {
    m = new Node;
    m.next = first;
    n = n - 1;
  }
}
proc halve(d: int) {
  size = size / d;
  print size;
}
proc spin(n: int) {
  while n > 0 {
    n = n - 1;
  }
}
proc sink(n: int) {
  size = size + n;
  if n > 0 {
    call sink(n - 1);
  }
}
query node(i: int): Node {
  var n: Node;
  n = first;
  while i > 0 {
    n = n.next;
    i = i - 1;
  }
  return n;
}
query top() {
  print first.key;
}
query sum() {
  var n: Node;
  var s: int;
  n = first;
  while n != null {
    s = s + n.key;
    n = n.next;
  }
  print s;
  print size;
}
query turns(n: int) {
  while n > 0 {
    print n;
    n = n - 1;
  }
}
";

/// A version: mostly one that is there, often the newest.
fn version(random: &mut Random, count: u32) -> u32 {
    match random.below(8) {
        0..=3 => random.below(count.max(1)),
        4..=5 => count.saturating_sub(1),
        6 => count.saturating_sub(random.below(9)),
        _ => count.saturating_add(random.below(3)),
    }
}

/// A run: mostly an open one.
fn run<H: VersionedHeap>(random: &mut Random, engine: &Engine<H>) -> u32 {
    let open = &engine.active.items;
    let many = open.len().min(64) as u32;
    if many == 0 || random.below(8) == 0 {
        return random.below(engine.next_run.0.max(1));
    }
    open[random.below(many) as usize].run.0
}

/// A call of a procedure that may write, or one that is refused.
fn proc_call(alloc: Global, random: &mut Random) -> Result<String, NoMemory> {
    let n = random.below(6);
    match random.below(16) {
        0..=4 => format!(in alloc; "add {n}"),
        5 => format!(in alloc; "fill {n}"),
        6..=7 => format!(in alloc; "cut"),
        8 => format!(in alloc; "set {n} -9000000000"),
        9 => format!(in alloc; "join {n}"),
        10 => format!(in alloc; "halve {n}"),
        11 => format!(in alloc; "spin {n}00"),
        12 => format!(in alloc; "sink {n}0"),
        13 => format!(in alloc; "sink 300"),
        14 => format!(in alloc; "add {n} {n}"),
        _ => format!(in alloc; "sum"),
    }
}

/// A call of a query, or one that is refused.
fn query_call(alloc: Global, random: &mut Random) -> Result<String, NoMemory> {
    let n = random.below(6);
    match random.below(8) {
        0..=3 => format!(in alloc; "sum"),
        4 => format!(in alloc; "top"),
        5 => format!(in alloc; "turns {n}"),
        6 => format!(in alloc; "node {n}"),
        _ => format!(in alloc; "add {n}"),
    }
}

/// A line that is no command, or whose numbers are out of range.
fn broken(alloc: Global, random: &mut Random) -> Result<String, NoMemory> {
    match random.below(8) {
        0 => format!(in alloc; "jump 1"),
        1 => format!(in alloc; "run 0"),
        2 => format!(in alloc; "run 4294967296 add 1"),
        3 => format!(in alloc; "run 0 add 9223372036854775808"),
        4 => format!(in alloc; "step 1 0"),
        5 => format!(in alloc; "budget 1000000001"),
        6 => format!(in alloc; "# a note"),
        _ => format!(in alloc; "close -1"),
    }
}

/// A budget: mostly a small one.
fn budget(random: &mut Random) -> u32 {
    match random.below(4) {
        0 => 1 + random.below(20),
        1 => 1 + random.below(300),
        2 => 1 + random.below(3_000),
        _ => 1_000_000,
    }
}

/// The next line of a script for both.
pub(crate) fn next_line<H: VersionedHeap>(
    alloc: Global,
    random: &mut Random,
    twins: &Twins<H>,
) -> Result<String, NoMemory> {
    let version = version(random, twins.heap.count());
    let run = run(random, &twins.engine);
    match random.below(1_000) {
        0..=279 => format!(in alloc; "run {version} {}", proc_call(alloc, random)?),
        280..=469 => format!(in alloc; "query {version} {}", query_call(alloc, random)?),
        470..=559 => format!(in alloc; "open {version} {}", proc_call(alloc, random)?),
        560..=609 => format!(in alloc; "open {version}"),
        610..=729 => format!(in alloc; "call {run} {}", proc_call(alloc, random)?),
        730..=849 => format!(in alloc; "step {run} {}", 1 + random.below(40)),
        850..=909 => format!(in alloc; "close {run}"),
        910..=939 => format!(in alloc; "drop {run}"),
        940..=969 => format!(in alloc; "budget {}", budget(random)),
        970..=974 => format!(in alloc; "versions"),
        975 => format!(in alloc; "stats"),
        _ => broken(alloc, random),
    }
}
