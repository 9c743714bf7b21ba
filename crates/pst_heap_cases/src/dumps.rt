//! Dumps as texts.

use super::built::{Built, FIRST, KEY, LEFT, RIGHT, ROOT, SECOND, SIZE, Trouble, item};
use pst_base::SlotNo;

#[test]
fn the_root_record_alone(rt: HostRuntime) -> Result<(), Trouble> {
    let heap = Built::new(rt.alloc())?;
    let wanted: &[u8] = b"0 root: null null\n";
    assert!(rt; heap.dump()?.as_slice() == wanted);
    Ok(())
}

#[test]
fn a_list_whose_first_item_came_last(rt: HostRuntime) -> Result<(), Trouble> {
    let mut heap = Built::new(rt.alloc())?;
    heap.make(item(0))?;
    heap.set(item(0), KEY, 5)?;
    heap.point(ROOT, FIRST, Some(item(0)))?;
    heap.make(item(1))?;
    heap.set(item(1), KEY, 7)?;
    heap.point(item(1), LEFT, Some(item(0)))?;
    heap.point(ROOT, FIRST, Some(item(1)))?;
    let wanted: &[u8] = b"0 root: @1 null
1 N: 7 0 @2 null
2 N: 5 0 null null
";
    assert!(rt; heap.dump()?.as_slice() == wanted);
    Ok(())
}

/// Numbers of items: the ordinal of the item, the field and the number.
const NUMBERS: [(u32, SlotNo, i64); 4] = [
    (0, SIZE, -9_223_372_036_854_775_808),
    (1, KEY, 9_223_372_036_854_775_807),
    (2, KEY, -1),
    (2, SIZE, 10),
];

/// Pointers between items: the ordinal of the item, the field and the ordinal of the target.
const POINTERS: [(u32, SlotNo, u32); 6] = [
    (3, RIGHT, 2),
    (2, LEFT, 3),
    (2, RIGHT, 0),
    (1, LEFT, 0),
    (1, RIGHT, 1),
    (4, LEFT, 0),
];

/// Makes five items with these numbers, points the roots to two of them, and then sets the pointers between them.
fn five_items(heap: &mut Built) -> Result<(), Trouble> {
    for ordinal in 0..5 {
        heap.make(item(ordinal))?;
    }
    set_numbers(heap)?;
    heap.point(ROOT, FIRST, Some(item(3)))?;
    heap.point(ROOT, SECOND, Some(item(1)))?;
    set_pointers(heap)
}

/// Sets the numbers.
fn set_numbers(heap: &mut Built) -> Result<(), Trouble> {
    for (ordinal, field, n) in NUMBERS {
        heap.set(item(ordinal), field, n)?;
    }
    Ok(())
}

/// Sets the pointers between items.
fn set_pointers(heap: &mut Built) -> Result<(), Trouble> {
    for (ordinal, field, target) in POINTERS {
        heap.point(item(ordinal), field, Some(item(target)))?;
    }
    Ok(())
}

#[test]
fn a_shared_item_a_ring_and_one_that_nothing_reaches(rt: HostRuntime) -> Result<(), Trouble> {
    let mut heap = Built::new(rt.alloc())?;
    five_items(&mut heap)?;
    let wanted: &[u8] = b"0 root: @1 @2
1 N: 0 0 null @3
2 N: 9223372036854775807 0 @4 @2
3 N: -1 10 @1 @4
4 N: 0 -9223372036854775808 null null
";
    assert!(rt; heap.dump()?.as_slice() == wanted);
    Ok(())
}

/// The items of the long list. The forest counts in-degrees anew at each write of a pointer, so there are not more.
const MANY: u32 = 1_000;

/// A list of many items.
fn long_list(heap: &mut Built) -> Result<(), Trouble> {
    heap.make(item(0))?;
    heap.point(ROOT, FIRST, Some(item(0)))?;
    for ordinal in 1..MANY {
        heap.make(item(ordinal))?;
        heap.point(item(ordinal - 1), LEFT, Some(item(ordinal)))?;
    }
    heap.set(item(MANY - 1), KEY, 1)
}

#[test]
fn a_list_of_a_thousand(rt: HostRuntime) -> Result<(), Trouble> {
    let mut heap = Built::new(rt.alloc())?;
    long_list(&mut heap)?;
    let dump = heap.dump()?;
    let start: &[u8] = b"0 root: @1 null\n1 N: 0 0 @2 null\n2 N: 0 0 @3 null\n";
    let end: &[u8] = b"\n999 N: 0 0 @1000 null\n1000 N: 1 0 null null\n";
    assert!(rt; dump.as_slice().starts_with(start));
    assert!(rt; dump.as_slice().ends_with(end));
    Ok(())
}
