//! What no clause says: that the calls which take memory succeed, and how large a node is.

use pst_base::{Name, NoMemory, NodeId, RunNo, Targets, TypeNo, TypeShape};
use pst_nodes::header::Header;
use pst_nodes::links::{Link, Links};
use pst_nodes::node::{Node, Nodes};
use pst_order::Pos;
use pst_rows::Row;
use std::alloc::Global;
use std::mem::size_of;

/// How many slots an item of a list has: a number, a pointer and, for the limit 2, two inverse slots.
const ITEM_SLOTS: usize = 4;

fn row_of_item(alloc: Global) -> Result<Row, NoMemory> {
    let item = TypeShape {
        values: 1,
        targets: Targets::from_vec(vec![in alloc; TypeNo(1)]?),
        limit: 2,
    };
    Row::new(alloc, &item, Pos(0), Pos(1))
}

#[test]
fn nodes_are_numbered_from_0(rt: HostRuntime) -> Result<(), NoMemory> {
    let alloc = rt.alloc();
    let name = Name {
        run: RunNo(5),
        ordinal: 0,
    };
    let mut nodes = Nodes::new(alloc);
    nodes.reserve(2)?;
    assert!(rt; nodes.spare() >= 2);
    assert_eq!(rt; nodes.add(name, TypeNo(1), row_of_item(alloc)?)?, NodeId(0));
    assert_eq!(rt; nodes.add(name, TypeNo(1), row_of_item(alloc)?)?, NodeId(1));
    assert!(rt; nodes.count() == 2);
    nodes.reserve_row(NodeId(1), 9)?;
    assert!(rt; nodes.row(NodeId(1)).spare() >= 9);
    assert_eq!(rt; nodes.row(NodeId(1)).width(), ITEM_SLOTS);
    assert_eq!(rt; nodes.later(NodeId(1)), None);
    let part = Node {
        header: Header::new(name, TypeNo(1), Some(NodeId(0)), Link::Before(NodeId(1))),
        row: row_of_item(alloc)?,
    };
    assert_eq!(rt; nodes.push(part)?, NodeId(2));
    assert_eq!(rt; nodes.later(NodeId(2)), Some(NodeId(0)));
    assert!(rt; nodes.queue_link(NodeId(2)) == Link::Before(NodeId(1)));
    Ok(())
}

#[test]
fn what_stands_beside_a_row_takes_32_bytes(rt: HostRuntime) {
    assert!(rt; size_of::<Node>() == size_of::<Row>() + 32);
}
