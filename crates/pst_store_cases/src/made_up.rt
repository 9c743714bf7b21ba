//! A script that is made up, and the program that it is for.

ghost use Rattle.std.specs.Prelude.{OnOk};
ghost use Rattle.pst_store_cases.specs.Going.{IsGoing};

use crate::session::Session;
use pst_base::NoMemory;
use pst_engine_testing::Random;
use pst_versions::VersionedHeap;
use std::alloc::Global;

/// The program that the script is for: nodes in a list that also point across it, and procedures that write many of them in a
/// call. Some calls trap.
pub const PROGRAM: &str = "\
record Node 4 { val key: int; val mark: int; ptr next: Node; ptr over: Node; }
root first: Node;
root other: Node;
root size: int;
proc grow(n: int) {
  var i: Node;
  while n > 0 {
    i = new Node;
    i.key = n;
    i.next = first;
    first = i;
    n = n - 1;
  }
}
proc paint(n: int) {
  var i: Node;
  var j: Node;
  i = other;
  j = first.next;
  while n > 0 {
    i.mark = n;
    i.over = j;
    i.key = j.key;
    j.key = n;
    j.mark = i.key;
    j.over = i;
    j.mark = n;
    i.mark = 0;
    n = n - 1;
  }
}
proc tie(n: int, k: int) {
  var i: Node;
  i = first;
  while n > 0 {
    i.over = other;
    i.mark = n;
    if n % k == 0 {
      other = i;
    }
    i = i.next;
    n = n - 1;
  }
}
proc loosen(n: int) {
  var i: Node;
  i = first;
  while n > 0 {
    i.over = null;
    i.over = i;
    i.key = n * n;
    i = i.next;
    n = n - 1;
  }
}
proc turn(n: int) {
  var i: Node;
  while n > 0 {
    i = first;
    first = i.next;
    i.next = first.next;
    first.next = i;
    other = i;
    size = size + 1;
    n = n - 1;
  }
}
proc crowd(n: int) {
  var i: Node;
  i = first;
  while n > 0 {
    i.over = first;
    i = i.next;
    n = n - 1;
  }
}
proc cut() {
  print first.key;
  first = first.next;
}
query keys(n: int) {
  var i: Node;
  i = first;
  while i != null and n > 0 {
    print i.key;
    print i.mark;
    i = i.next;
    n = n - 1;
  }
}
query over(n: int) {
  var i: Node;
  i = other;
  while n > 0 {
    i = i.over;
    print i.key;
    n = n - 1;
  }
}
";

/// A version that is there: any, or the newest.
fn version(random: &mut Random, count: u32) -> u32 {
    match random.below(4) {
        0 => count.saturating_sub(1),
        _ => random.below(count.max(1)),
    }
}

/// An open run, or one that is not.
fn run<H: VersionedHeap>(random: &mut Random, session: &Session<H>) -> u32 {
    let open = &session.engine.active.items;
    let many = open.len().min(64) as u32;
    if many == 0 || random.below(16) == 0 {
        return random.below(session.engine.next_run.0.max(1));
    }
    open[random.below(many) as usize].run.0
}

/// A word and a number.
fn one(alloc: Global, word: &str, first: u32) -> Result<String, NoMemory> {
    format!(in alloc; "{word} {first}")
}

/// A word and two numbers.
fn two(alloc: Global, word: &str, first: u32, second: u32) -> Result<String, NoMemory> {
    format!(in alloc; "{word} {first} {second}")
}

/// A word, a number and a call.
fn with_call(
    alloc: Global,
    word: &str,
    number: u32,
    call: Result<String, NoMemory>,
) -> Result<String, NoMemory> {
    format!(in alloc; "{word} {number} {}", call?)
}

/// A call of a procedure.
fn proc_call(alloc: Global, random: &mut Random) -> Result<String, NoMemory> {
    let n = random.below(12);
    let k = random.below(5);
    match random.below(16) {
        0..=2 => one(alloc, "grow", k),
        3..=8 => one(alloc, "paint", random.below(100)),
        9..=10 => two(alloc, "tie", n, k),
        11 => one(alloc, "loosen", k),
        12..=13 => one(alloc, "turn", n),
        14 => one(alloc, "crowd", k),
        _ => "cut".to_string(alloc),
    }
}

/// A call of a query.
fn query_call(alloc: Global, random: &mut Random) -> Result<String, NoMemory> {
    let n = random.below(20);
    match random.below(2) {
        0 => one(alloc, "keys", n),
        _ => one(alloc, "over", n),
    }
}

/// A line that comes seldom.
fn seldom_line(alloc: Global, random: &mut Random, run: u32) -> Result<String, NoMemory> {
    match random.below(8) {
        0 => one(alloc, "drop", run),
        1 => "stats".to_string(alloc),
        2 => one(alloc, "budget", 100 + random.below(2_000)),
        _ => one(alloc, "close", run),
    }
}

/// The next line of a script, about a version and a run.
fn next_line(
    alloc: Global,
    random: &mut Random,
    version: u32,
    run: u32,
) -> Result<String, NoMemory> {
    match random.below(16) {
        0..=5 => with_call(alloc, "run", version, proc_call(alloc, random)),
        6..=7 => with_call(alloc, "query", version, query_call(alloc, random)),
        8 => with_call(alloc, "open", version, proc_call(alloc, random)),
        9..=11 => with_call(alloc, "call", run, proc_call(alloc, random)),
        12..=13 => two(alloc, "step", run, 1 + random.below(200)),
        14 => one(alloc, "close", run),
        _ => seldom_line(alloc, random, run),
    }
}

/// A script with the replies to it.
#[derive(Drop)]
pub struct MadeUp {
    pub script: Vec<u8>,
    pub replies: Vec<u8>,
}

/// Makes one more line up, and has the session carry it out.
fn go_on<H: VersionedHeap>(
    alloc: Global,
    session: &mut Session<H>,
    random: &mut Random,
    made: &mut MadeUp,
) -> Result<(), NoMemory>
    requires { IsGoing session.old.code session.old.engine (H.state session.old.heap) }
    ensures { OnOk result (IsGoing session.new.code session.new.engine (H.state session.new.heap)) }
{
    let version = version(random, session.heap.count());
    let run = run(random, session);
    let line = next_line(alloc, random, version, run)?;
    let reply = session.reply(alloc, line.as_bytes())?;
    made.script.extend_from_slice(line.as_bytes())?;
    made.script.push(b'\n')?;
    made.replies.extend_from_slice(reply.as_slice())
}

/// Makes a script of so many lines up. A session carries it out meanwhile, so that the lines are about versions and runs that
/// are there.
pub fn make_up<H: VersionedHeap>(
    alloc: Global,
    session: &mut Session<H>,
    seed: u64,
    lines: u32,
) -> Result<MadeUp, NoMemory>
    requires { IsGoing session.old.code session.old.engine (H.state session.old.heap) }
    ensures { OnOk result (IsGoing session.new.code session.new.engine (H.state session.new.heap)) }
{
    let mut random = Random::new(seed);
    let mut made = MadeUp {
        script: Vec::new(alloc),
        replies: Vec::new(alloc),
    };
    for _ in 0..lines {
        go_on(alloc, session, &mut random, &mut made)?;
    }
    Ok(made)
}
