//! Three sample programs in the notation.
//!
//! Model: each is its own text, which ends with a line feed.
//!
//! Contract: each call gives its text, the constant of the same name, and takes no memory. That the texts are programs is shown
//! where they are run.
//!
//!     let program = pst_samples::ring();
#![tactic(auto)]

ghost use Rattle.std.specs.Prelude.{◌≡◌, ◌<◌, ◌^◌, length};
ghost use Rattle.pst_samples.specs.declared.TheConstants.{LIST, TREE, RING};

/// Numbers in a list that is linked one way.
pub const LIST: &str = "record N 2 { val key: int; ptr next: N; }
root first: N;
proc add(k: int) {
  var n: N;
  n = new N;
  n.key = k;
  n.next = first;
  first = n;
}
query sum() {
  var p: N;
  var s: int;
  p = first;
  while p != null {
    s = s + p.key;
    p = p.next;
  }
  print s;
}
proc bad() {
  var p: N;
  print 1;
  print 2;
  p.key = 3;
}
proc fill(k: int) {
  var i: int;
  while i < k {
    call add(i);
    i = i + 1;
  }
}
";

/// Keys in a search tree.
pub const TREE: &str = "record T 1 { val key: int; ptr left: T; ptr right: T; }
root top: T;
proc put(k: int) {
  var n: T;
  var p: T;
  n = new T;
  n.key = k;
  if top == null {
    top = n;
    return;
  }
  p = top;
  while p.key != k {
    if k < p.key {
      if p.left == null {
        p.left = n;
      }
      p = p.left;
    } else {
      if p.right == null {
        p.right = n;
      }
      p = p.right;
    }
  }
}
query below(p: T) {
  if p != null {
    call below(p.left);
    print p.key;
    call below(p.right);
  }
}
query all() {
  call below(top);
}
";

/// Keys in a ring that is linked both ways. A record is held by its two neighbours and by the root.
pub const RING: &str = "record R 3 { val key: int; ptr next: R; ptr prev: R; }
root first: R;
proc make(k: int) {
  var r: R;
  r = new R;
  r.key = k;
  r.next = r;
  r.prev = r;
  first = r;
}
proc insert(k: int) {
  var n: R;
  var q: R;
  n = new R;
  n.key = k;
  q = first.next;
  first.next = n;
  n.next = q;
  q.prev = n;
  n.prev = first;
}
proc move() {
  first = first.next;
}
proc set(k: int) {
  first.key = k;
}
proc turn(k: int) {
  first.key = k;
  first.next = null;
  first.next = first;
}
query count() {
  var p: R;
  var n: int;
  p = first;
  if p != null {
    n = 1;
    p = p.next;
    while p != first {
      n = n + 1;
      p = p.next;
    }
  }
  print n;
}
query key() {
  print first.key;
}
query see() {
  print first.key;
  if first.next == first and first.prev == first {
    print 1;
  }
}
";

/// A list that is linked one way: `add` puts a number in front, `fill` the numbers below one in ascending order, `sum` prints
/// the sum of all, and `bad` prints two numbers and then follows null.
pub fn list() -> &'static str
    ensures { result.now ≡ LIST.now }
{
    LIST
}

/// A search tree: `put` adds a key as a leaf, unless it is there, and `all` prints the keys in ascending order.
pub fn tree() -> &'static str
    ensures { result.now ≡ TREE.now }
{
    TREE
}

/// A ring that is linked both ways: `make` begins it with one record, `insert` puts a record behind the root's, `move` turns the
/// root to the next one, `set` and `turn` write to the root's record, and `count`, `key` and `see` are its queries.
pub fn ring() -> &'static str
    ensures text { result.now ≡ RING.now }
    ensures short { length result.now < 2 ^ 16 }
{
    RING
}
