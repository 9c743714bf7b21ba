//! A row of parts by hand: seven slots, of which two have two stamped values and one has one.

use pst_base::{NoMemory, NodeId, SlotNo};
use pst_order::Pos;
use pst_rows::{Content, Row, Stamp};

// A stamped value.
fn stamp(slot: u8, place: u32, content: Content) -> Stamp {
    Stamp::new(SlotNo(u16::from(slot)), Pos(place), content)
}

// What the seven slots hold at first: two numbers, two pointers, three inverse slots.
fn bases() -> [Content; 7] {
    [
        Content::Number(5),
        Content::Number(-1),
        Content::Null,
        Content::Target(NodeId(3)),
        Content::Free,
        Content::From(NodeId(8), SlotNo(2)),
        Content::Free,
    ]
}

// The stamped values, in the order of slot and then place. Place 7 is before place 4 here.
fn stamps() -> [Stamp; 5] {
    [
        stamp(1, 7, Content::Number(2)),
        stamp(1, 4, Content::Number(0)),
        stamp(3, 4, Content::Null),
        stamp(5, 7, Content::Free),
        stamp(5, 9, Content::From(NodeId(9), SlotNo(3))),
    ]
}

#[test]
fn a_row_gives_its_parts_back(rt: HostRuntime) -> Result<(), NoMemory> {
    let row = Row::of_parts(rt.alloc(), Pos(2), Pos(11), &bases(), &stamps())?;
    assert!(rt; row.lo() == Pos(2));
    assert!(rt; row.hi() == Pos(11));
    assert_eq!(rt; row.stamped(), 5);
    for (kept, given) in row.stamps().iter().zip(stamps().iter()) {
        assert!(rt; kept.slot() == given.slot());
        assert!(rt; kept.place() == given.place());
        assert!(rt; kept.content() == given.content());
    }
    assert_eq!(rt; row.width(), 7);
    assert!(rt; row.base(SlotNo(1)) == Content::Number(-1));
    assert!(rt; row.base(SlotNo(5)) == Content::From(NodeId(8), SlotNo(2)));
    Ok(())
}
